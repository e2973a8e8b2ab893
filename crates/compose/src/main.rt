// Turns a session in words into the bytes that the desk reads: the 512 of the image, then 16 for each call. A bad line is refused with its number and the
// reason, on standard error, and nothing is written from there on. Where the input cannot be read or the output cannot be written, it says so there too, with
// how many calls were written.
//
// It knows the text form of docs/WORDS.md, the image and the 16 bytes of a call, and nothing of tables. A read may end at any byte.
#![tactic(auto)]

mod events;
mod made;
mod operands;
mod scan;
mod session;
mod verbs;

use saying::Trouble;
use session::{Over, Session};

// Reads once, and takes what came; where the input has ended, so does the session.
fn some(rt: HostRuntime, s: &mut Session) -> Result<(), Over> {
    let mut buffer = [0; 512];
    match pipes::some(&rt, &mut rt.stdin(), &mut buffer) {
        Ok(0) => {
            s.finish(rt)?;
            Err(Over)
        }
        Ok(n) => s.feed(rt, &buffer[..n]),
        Err(_) => {
            Trouble::Unread.say(rt, Some(s.calls));
            Err(Over)
        }
    }
}

// A proved loop has to end, and nothing says that the input does: the reads are counted, up to a number that no run uses up.
fn main(rt: HostRuntime) {
    let mut s = Session::new();
    for _ in 0..u64::MAX {
        if some(rt, &mut s).is_err() {
            return;
        }
    }
}
