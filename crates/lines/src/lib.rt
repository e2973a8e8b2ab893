// Lines: a line as bytes, gathered piece by piece, so that it can be written in one.
//
// No `write!` puts a number there: no clause knows what it puts anywhere but into a String, which allocates.
#![tactic(auto)]

ghost use Rattle.std.specs.Prelude.{◌≡◌, ◌+◌, ◌≤◌, ◌<◌, length, [], ◌++◌};
ghost use Rattle.text.specs.Decimals.{spelling};
ghost use Rattle.lines.specs.Lines.{room, Holds, Adds, Fits, member_of, members_of, answer_of};

use calls::Answer;
use std::marker::Model;
use text::bytes::Bytes;
use text::decimals;

// How many bytes a line has room for: `room` of specs/Lines.antt.
const ROOM: usize = 640;

// The bytes so far; a contract sees them as a list.
#[derive(Clone, Copy, Debug, PartialEq, Eq)]
pub struct Line {
    gathered: Bytes<ROOM>,
}

impl Model for Line {
    ghost use Rattle.std.specs.Prelude.{ℕ, List};

    ghost Value = { List ℕ };

    ghost view = { λ l. l.gathered };

    ghost inverse = { λ l. record { gathered = l } };
}

// The three numbers of an answer, with a space between.
impl From<Answer> for Line {
    ghost from_gives = { λ a line. Holds line (answer_of a) 62 };

    fn from(a: Answer) -> Line {
        Line::new()
            .field(b"", u64::from(a.refusal))
            .field(b" ", u64::from(a.result))
            .field(b" ", u64::from(a.running))
    }
}

impl Line {
    pub fn new() -> Line
        ensures { Holds result [] 0 }
    {
        Line {
            gathered: Bytes::new(),
        }
    }

    pub fn bytes(&self) -> &[u8]
        ensures { result.now ≡ self.now }
    {
        self.gathered.as_slice()
    }

    // The line with words behind it.
    pub fn text(self, words: &[u8]) -> Line
        requires { length self + length words.now ≤ room }
        ensures { Adds self words.now result }
    {
        Line {
            gathered: self.gathered.with(words),
        }
    }

    // The line with a name behind it, and a number behind that.
    pub fn field(self, name: &[u8], value: u64) -> Line
        requires { length self + length name.now + 20 ≤ room }
        ensures { Fits self (name.now ++ spelling value) (length name.now + 20) result }
    {
        let number = decimals::spell(value);
        self.text(name).text(number.as_slice())
    }

    // The line with the members of a set behind it, by number, each behind a space.
    pub fn members(self, set: u64) -> Line
        requires { length self + 210 ≤ room }
        ensures { Fits self (members_of set 64) 192 result }
    {
        let mut line = self;
        for e in 0..64 {
            line = line.member(set, e);
        }
        line
    }

    // The line with one of them, where it is in the set.
    fn member(self, set: u64, e: u64) -> Line
        requires { (length self + 21 ≤ room) × (e < 64) }
        ensures { Fits self (member_of set e) 3 result }
    {
        if (set >> e) % 2 == 1 {
            self.field(b" ", e)
        } else {
            self
        }
    }
}
