// Bytes that are gathered in an array, with how many of them there are; a contract sees them as a list.
ghost use Rattle.std.specs.Prelude.{◌≡◌, ◌+◌, ◌≤◌, [], ◌++◌, length, take, drop};

use std::marker::Model;

// Behind the bytes in use lie zeros, so that the list gives the fields back, as `Copy` wants.
#[derive(Clone, Copy, Debug, PartialEq, Eq)]
pub struct Bytes<const ROOM: usize> {
    pub(crate) bytes: [u8; ROOM],
    pub(crate) used: usize,
}

impl<const ROOM: usize> Model for Bytes<ROOM> {
    ghost use Rattle.std.specs.Prelude.{◌≡◌, ◌-◌, ◌≤◌, ◌++◌, ℕ, List, length, take, drop, replicate};
    ghost use Rattle.std.proofs.Common.{arith, ap, sym, ◌∙◌, length-take-le, take-append-drop};

    ghost Value = { List ℕ };

    ghost view = { λ b. take b.used b.bytes };

    ghost invariant = { λ b. (b.used ≤ ROOM) × (length b.bytes ≡ ROOM) × (drop b.used b.bytes ≡ replicate (ROOM - b.used) 0) };

    ghost inverse = { λ l. record { bytes = l ++ replicate (ROOM - length l) 0; used = length l } };

    ghost inverse_ok = { λ b h i.
        let front = take b.used b.bytes in
        let many = length-take-le b.used b.bytes (omega (arith, h.0, h.1)) in
        record {
          bytes = (ap (λ (n : ℕ). front ++ replicate (ROOM - n) 0) many ∙ ap (λ (l : List ℕ). front ++ l) (sym h.2) ∙ take-append-drop b.used b.bytes) i;
          used = many i;
        } };
}

impl<const ROOM: usize> Bytes<ROOM> {
    pub fn new() -> Self
        ensures { result ≡ [] }
    {
        Bytes {
            bytes: [0; ROOM],
            used: 0,
        }
    }

    pub fn as_slice(&self) -> &[u8]
        ensures { result.now ≡ self.now }
    {
        &self.bytes[..self.used]
    }

    // These bytes, and words behind them.
    pub fn with(self, words: &[u8]) -> Self
        requires { length self + length words.now ≤ ROOM }
        ensures { result ≡ self.entry ++ words.now }
    {
        let mut bytes = self.bytes;
        let used = self.used + words.len();
        write_at(&mut bytes, self.used, words);
        Bytes { bytes, used }
    }
}

// Writes words over the bytes from `at` on.
fn write_at(bytes: &mut [u8], at: usize, words: &[u8])
    requires { at + length words.now ≤ length bytes.old }
    ensures { bytes.new ≡ take at bytes.old ++ words.now ++ drop (at + length words.now) bytes.old }
{
    bytes[at..at + words.len()].copy_from_slice(words);
}
