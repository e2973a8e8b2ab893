// What a call asks for.
ghost use Rattle.std.specs.Prelude.{◌+◌, ◌≤◌, length};

use calls::{Call, codes};
use lines::Line;

pub fn call(l: Line, c: Call) -> Line
    requires { length l ≤ 64 }
    ensures { length result ≤ length l + 280 }
{
    match c.code {
        codes::FREEMAIN => l.text(b"freemain"),
        codes::LINK => l.field(b"link module ", u64::from(c.number)),
        codes::END => l.text(b"end"),
        codes::SCHEDULE => condition(
            l.field(b"schedule module ", u64::from(c.number)),
            b" when ",
            c,
        ),
        codes::WAIT => condition(l.text(b"wait"), b" until ", c),
        codes::SIGNAL => signal(l, c.number, c.value),
        codes::TEST_EVENT => l.field(b"test event ", u64::from(c.number)),
        codes::DISPATCH_CHECK => l.text(b"dispatch check"),
        codes::READ => device(l, b"read ", b" bytes from device ", c),
        codes::WRITE => device(l, b"write ", b" bytes to device ", c),
        codes::CHECK => l.field(b"check request ", u64::from(c.number)),
        codes::TIMER => l.text(b"timer"),
        codes::IO_DONE => l.text(b"I/O done"),
        codes::PROGRAM_CHECK => l.text(b"program check"),
        codes::OPERATOR_START => l.field(b"start module ", u64::from(c.number)),
        _ => l.field(b"code ", u64::from(c.code)),
    }
}

// When the task is to go on, behind a word for it; kind 0 is at once.
fn condition(l: Line, word: &[u8], c: Call) -> Line
    requires { (length l ≤ 100) × (length word.now ≤ 8) }
    ensures { length result ≤ length l + 230 }
{
    match c.kind {
        0 => l,
        1 => l
            .field(word, u64::from(c.value))
            .text(b" of events")
            .members(c.events),
        2 => l.text(word).field(b"the clock is ", u64::from(c.amount)),
        3 => l.field(word, u64::from(c.amount)).text(b" cycles passed"),
        _ => l.field(b" by kind ", u64::from(c.kind)),
    }
}

fn signal(l: Line, event: u8, value: u8) -> Line
    requires { length l ≤ 64 }
    ensures { length result ≤ length l + 64 }
{
    let named = l.field(b"signal event ", u64::from(event));
    match value {
        0 => named.text(b" off"),
        1 => named.text(b" on"),
        _ => named.field(b" by value ", u64::from(value)),
    }
}

// So many bytes from or to a device.
fn device(l: Line, verb: &[u8], way: &[u8], c: Call) -> Line
    requires { (length l ≤ 64) × (length verb.now + length way.now ≤ 32) }
    ensures { length result ≤ length l + 80 }
{
    l.field(verb, u64::from(c.amount))
        .field(way, u64::from(c.number))
}
