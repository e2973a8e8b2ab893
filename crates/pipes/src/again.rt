// Whether a read or a write is tried again.
ghost use Rattle.std.specs.Prelude.{IsErr, IsTrue};

use std::io::ErrorKind;
use std::rt::Clock;
use std::time::Duration;
use std::{io, thread};

// Whether the same call may do better after this answer: it would have had to wait, which is then done, or a signal came first. Not where bytes moved, where
// the input has ended, or where it failed in another way.
pub fn worth<C: Clock>(clock: &C, answer: io::Result<usize>) -> bool
    ensures { IsTrue result → IsErr answer }
{
    let Err(error) = answer else {
        return false;
    };
    if error.kind() == ErrorKind::WouldBlock {
        pause(clock);
        return true;
    }
    error.kind() == ErrorKind::Interrupted
}

// Waits for a millisecond.
fn pause<C: Clock>(clock: &C) {
    thread::sleep(clock, Duration::from_millis(1));
}
