// The words of a line of a session, one at a time: where the next one is, whether it is a given one, which number it is; and a range of events as a set.
//
// docs/WORDS.md has the lines. A line is any bytes.
#![tactic(auto)]

ghost use Rattle.std.specs.Prelude.{◌≡◌, ◌+◌, ◌≤◌, ◌<◌, ◌↔◌, IsTrue, length};
ghost use Rattle.text.specs.Decimals.{number_of};
ghost use Rattle.phrases.specs.Words.{Within, Next, bytes_of};
ghost use Rattle.phrases.specs.Events.{ranged};

use text::decimals::NumberError;
use text::word::Word;
use text::{decimals, word};
use words::sets;

// The next word from `at` on; an empty one stands for the end of the line.
pub fn next(line: &[u8], at: usize) -> Word
    requires { at ≤ length line.now }
    ensures { Next line.now at result }
{
    let w = word::first(&line[at..]);
    Word {
        from: at + w.from,
        to: at + w.to,
    }
}

// Whether a word is this one.
pub fn named(line: &[u8], w: Word, name: &[u8]) -> bool
    requires { Within line.now 0 w }
    ensures { IsTrue result ↔ bytes_of line.now w ≡ name.now }
{
    &line[w.from..w.to] == name
}

// The number that a word is, which is to be at most `most`.
pub fn number(line: &[u8], w: Word, most: u64) -> Result<u64, NumberError>
    requires { Within line.now 0 w }
    ensures { result ≡ number_of (bytes_of line.now w) most }
{
    decimals::read(&line[w.from..w.to], most)
}

// The set with the events from `first` to `last` in it.
#[tactic(auto, using(crate::proofs::Ranges::ranged_none, crate::proofs::Ranges::ranged_in))]
pub fn with_range(set: u64, first: u64, last: u64) -> u64
    requires { last < 64 }
    ensures { result ≡ ranged set first (last + 1) }
{
    let mut all = set;
    for e in first..=last {
        all = sets::adding(all, e as u32);
    }
    all
}
