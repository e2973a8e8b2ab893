// A block of 512 bytes with its check behind the first 510: worked out, looked for, and put in.
//
// It answers for the check of 'Phase image' of document 01. It knows nothing of what a block holds.
#![tactic(auto)]

ghost use Rattle.std.specs.Prelude.{◌≡◌, ◌+◌, ◌*◌, ◌≤◌, ◌<◌, length, take};
ghost use Rattle.words.specs.Words.{below, all_of};
ghost use Rattle.sealed.specs.Sealed.{check_of, passes, sealed, zero_at};

// The check of the first 510 bytes, with no multiplication for a byte: from byte 509 down each byte is added to a total, and the total to the sum, so that
// byte i is in the sum i + 1 times.
pub fn check(bytes: &[u8]) -> u64
    requires { 510 ≤ length bytes.now }
    ensures { result ≡ check_of bytes.now }
{
    let mut total: u32 = 0;
    let mut sum: u32 = 0;
    for byte in bytes[..510].iter().rev() {
        total += u32::from(*byte);
        sum += total;
    }
    1 + u64::from(sum % 65521)
}

// Whether the check that the block has is its own.
pub fn passes(block: &[u8]) -> bool
    requires { 512 ≤ length block.now }
    ensures { result ≡ passes block.now }
{
    words::number(block, 510, 2) == check(block)
}

// Puts the check of the first 510 bytes behind them.
pub fn seal(block: &mut [u8])
    requires { length block.old ≡ 512 }
    ensures { block.new ≡ sealed (take 510 block.old) }
{
    let number = check(block);
    block[510] = words::digit(number, 0);
    block[511] = words::digit(number, 1);
}

// Whether `count` bytes are zero, from `from` on, `step` apart. An iterator's `all` stops at the first that is not, and looks at one byte at a time: with it the
// image check took 0.91 of the plain C loop's instructions, and so it takes 0.72; it may take 0.8 (`bench/run --instructions`).
pub fn zeros(bytes: &[u8], from: usize, step: usize, count: usize) -> bool
    requires { (from + step * count < 512 + step) × (512 ≤ length bytes.now) }
    ensures { result ≡ all_of (λ i. zero_at bytes.now (from + step * i)) (below count) }
{
    let mut all = true;
    for i in 0..count {
        all = all & (bytes[from + step * i] == 0);
    }
    all
}
