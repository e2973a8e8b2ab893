// What a call was answered.
ghost use Rattle.std.specs.Prelude.{◌+◌, ◌≤◌, length};

use crate::refused;
use calls::{Answer, codes};
use lines::Line;

pub fn answer(l: Line, code: u8, a: Answer) -> Line
    requires { length l ≤ 344 }
    ensures { length result ≤ 500 }
{
    if a.refusal == 0 {
        running(accepted(l, code, a.result), a)
    } else {
        running(refused::call(l.text(b": refused, "), code, a.refusal), a)
    }
}

fn accepted(l: Line, code: u8, res: u8) -> Line
    requires { length l ≤ 344 }
    ensures { length result ≤ 440 }
{
    match code {
        codes::LINK | codes::SCHEDULE | codes::OPERATOR_START => made(l, b": task ", res),
        codes::READ | codes::WRITE => made(l, b": request ", res),
        codes::TEST_EVENT => known(l, res),
        _ => l.text(b": done"),
    }
}

// What TEST EVENT has answered. A number that is none of its three answers is not taken for one of them.
fn known(l: Line, res: u8) -> Line
    requires { length l ≤ 344 }
    ensures { length result ≤ 440 }
{
    match res {
        1 => l.text(b": it is off"),
        2 => l.text(b": it is on"),
        3 => l.text(b": it was never signalled"),
        _ => l.field(b": no known answer, ", u64::from(res)),
    }
}

fn made(l: Line, name: &[u8], block: u8) -> Line
    requires { (length l ≤ 344) × (length name.now ≤ 32) }
    ensures { length result ≤ 440 }
{
    l.field(name, u64::from(block)).text(b" was made")
}

// The running task afterwards; refusal 9 names none.
fn running(l: Line, a: Answer) -> Line
    requires { length l ≤ 440 }
    ensures { length result ≤ 500 }
{
    if a.refusal == 9 {
        l
    } else if a.running == 0 {
        l.text(b"; no task runs")
    } else {
        l.field(b"; task ", u64::from(a.running)).text(b" runs")
    }
}
