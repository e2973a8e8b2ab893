// What the refusals mean, by the numbers of an answer: it is C's struct, in which any number can stand, so that no enum of the refusals is matched on.
ghost use Rattle.std.specs.Prelude.{◌≤◌, length};

use calls::codes;
use lines::Line;

// Of an image.
pub fn image(l: Line, number: u8) -> Line
    requires { length l ≤ 360 }
    ensures { length result ≤ 440 }
{
    match number {
        1 => l.text(b"it has the wrong length"),
        2 => l.text(b"its check is wrong"),
        3 => l.text(b"its form is not known"),
        4 => l.text(b"M, the number of modules, is wrong"),
        5 => l.text(b"N, the cycles between looks at the time queue, is wrong"),
        6 => l.text(b"a used entry has a bad level, units or flags"),
        _ => l.text(b"a byte that has to be zero isn't"),
    }
}

// Of a call, in the order of the table; 23 has two meanings.
pub fn call(l: Line, code: u8, number: u8) -> Line
    requires { length l ≤ 360 }
    ensures { length result ≤ 440 }
{
    match number {
        9 => l.text(b"the tables break the table rules"),
        10 => l.text(b"it is not 16 bytes"),
        24 => l.text(b"there is no such code"),
        11 => l.text(b"a running task is needed and none is"),
        25 => l.text(b"a request of the caller is queued or on the channel"),
        12 => l.text(b"there is no such module"),
        19 => l.text(b"the event is undefined or above 63"),
        22 => l.text(b"the device is above 249"),
        23 => amount(l, code),
        18 => l.text(b"the caller does not hold that request block"),
        13 => l.text(b"the kind is not one of this call, or an event is undefined"),
        14 => l.text(b"the count is 0 or more than the events in the set"),
        15 => l.text(b"the clock plus the interval passes the clock's end"),
        16 => l.text(b"all 24 task blocks are in use"),
        17 => l.text(b"all 16 request blocks are in use"),
        20 => l.text(b"nothing is on the channel"),
        _ => l.text(b"the clock is at its end"),
    }
}

fn amount(l: Line, code: u8) -> Line
    requires { length l ≤ 360 }
    ensures { length result ≤ 440 }
{
    if code == codes::SIGNAL {
        l.text(b"the value is not 0 or 1")
    } else {
        l.text(b"the byte count is 0 or above 65535")
    }
}
