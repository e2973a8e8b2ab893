// Decimal numbers: what bytes are as a number, and a number as bytes.
ghost use Rattle.std.specs.Prelude.{◌≡◌, ◌+◌, ◌*◌, leb};
ghost use Rattle.text.specs.Decimals.{all_digits, value_of, at_most, number_of, plain as is_plain, Spells};

use crate::bytes::Bytes;

// Why bytes are not the number that is asked for.
#[derive(Clone, Copy, Debug, PartialEq, Eq)]
pub enum NumberError {
    TooLarge,
    NotANumber,
}

// Whether bytes are digits, at least one, and nothing else.
pub fn all_digits(bytes: &[u8]) -> bool
    ensures { result ≡ all_digits bytes.now }
{
    !bytes.is_empty() && bytes.iter().all(|byte| byte.is_ascii_digit())
}

// Whether bytes are the spelling of a number: digits, with no 0 in front unless it is the only one.
pub fn plain(bytes: &[u8]) -> bool
    ensures { result ≡ is_plain bytes.now }
{
    all_digits(bytes) && (bytes.len() == 1 || bytes[0] != b'0')
}

// Whether a number with a digit behind it is at most `most`.
fn room(value: u64, digit: u64, most: u64) -> bool
    ensures { result ≡ leb (value * 10 + digit) most }
{
    digit <= most && value <= (most - digit) / 10
}

// The value of digits, if it is at most `most`.
fn value(bytes: &[u8], most: u64) -> Result<u64, NumberError>
    ensures { result ≡ at_most (value_of bytes.now) most }
{
    let mut so_far = 0;
    for byte in bytes {
        let next = u64::from(byte.saturating_sub(b'0'));
        if !room(so_far, next, most) {
            return Err(NumberError::TooLarge);
        }
        so_far = so_far * 10 + next;
    }
    Ok(so_far)
}

// The number that bytes are, which is to be at most `most`.
pub fn read(bytes: &[u8], most: u64) -> Result<u64, NumberError>
    ensures { result ≡ number_of bytes.now most }
{
    if all_digits(bytes) {
        value(bytes, most)
    } else {
        Err(NumberError::NotANumber)
    }
}

// The digits of a number.
pub type Spelled = Bytes<20>;

// A number in decimal.
pub fn spell(n: u64) -> Spelled
    ensures { Spells n result }
{
    let mut bytes = [0; 20];
    let count = io::decimal(n, &mut bytes);
    Bytes { bytes, used: count }
}
