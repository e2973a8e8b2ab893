// Says in plain words what a phase image holds: reads one from standard input, loads it, and tells by which number of document 01 it is refused,
// or what is in it; then writes it back and tells whether the same bytes came out. Where the input cannot be read or the output cannot be written, it says so
// on standard error.
//
// It knows the image alone, and nothing of tables or calls. Each line is tried, also after one that could not be written; the answer is the first failure.
#![tactic(auto)]

mod listing;

use answers::Refusal;
use image::Directory;
use lines::Line;
use saying::Trouble;
use std::io;

fn main(rt: HostRuntime) {
    // one byte more than an image has, so that a longer input is seen to be longer
    let mut input = [0u8; 513];
    let Ok(n) = pipes::take(&rt, &mut rt.stdin(), &mut input) else {
        Trouble::Unread.say(rt, None);
        return;
    };
    if describe(rt, &input[..n]).is_err() {
        Trouble::Unwritten.say(rt, None);
    }
}

fn describe(rt: HostRuntime, bytes: &[u8]) -> io::Result<()> {
    match image::load(bytes) {
        Ok(found) => accepted(rt, found, bytes),
        Err(refusal) => refused(rt, refusal),
    }
}

fn refused(rt: HostRuntime, refusal: Refusal) -> io::Result<()> {
    let number = u8::from(refusal);
    let by = Line::new()
        .field(b"The image is refused by ", u64::from(number))
        .text(b": ");
    saying::line(rt, explain::refused::image(by, number).text(b"."))
}

fn accepted(rt: HostRuntime, found: Directory, bytes: &[u8]) -> io::Result<()> {
    let one = saying::line(rt, Line::new().text(b"The image is accepted."));
    let two = listing::directory(rt, found);
    let mut back = [0u8; 512];
    let same = image::write(found, &mut back).is_ok() && &back[..] == bytes;
    let three = saying::line(
        rt,
        if same {
            Line::new().text(b"Written back, it gives the same 512 bytes.")
        } else {
            Line::new().text(b"Written back, it gives other bytes.")
        },
    );
    one.and(two).and(three)
}
