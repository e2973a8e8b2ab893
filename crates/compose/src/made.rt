// What the numbers of a line make: a call of the line's code, or another directory.
ghost use Rattle.std.specs.Prelude.{◌≡◌, ◌≤◌};
ghost use Rattle.compose.specs.Calls.{Composes};
ghost use Rattle.compose.specs.Image.{with_every, with_events, with_module};

use calls::{Call, codes};
use image::{Directory, Entry};

// The call of a code. "Only codes 7 and 8 use kind and set."
pub fn call(code: u8, c: Call) -> Call
    requires { c.kind ≤ 3 }
    ensures { Composes code c result }
{
    if (code == codes::SCHEDULE) | (code == codes::WAIT) {
        return Call { code, ..c };
    }
    Call {
        code,
        kind: 0,
        events: 0,
        ..c
    }
}

// every: N.
pub fn every(d: Directory, n: u8) -> Directory
    ensures { result ≡ with_every d n }
{
    Directory {
        every: n.into(),
        ..d
    }
}

// events: the defined ones.
pub fn events(d: Directory, set: u64) -> Directory
    ensures { result ≡ with_events d set }
{
    Directory { defined: set, ..d }
}

// module: one more, where the directory has room for it.
pub fn with_module(mut d: Directory, e: Entry) -> Directory
    ensures { result ≡ with_module d e }
{
    if d.modules < 32 {
        d.entries[d.modules as usize] = e;
        d.modules += 1;
    }
    d
}
