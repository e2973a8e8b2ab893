// The words that no session reaches: of the refusals 9 and 21, and of a number that TEST EVENT never answers. All others are in crates/desk/explained.session.
//
// What it must write stands in the file `stdout`, made by hand from the papers.
#![tactic(auto)]

use calls::{Answer, codes};
use lines::Line;

fn main(rt: HostRuntime) {
    told(rt, codes::END, 9, 0);
    told(rt, codes::TIMER, 21, 0);
    told(rt, codes::TEST_EVENT, 0, 4);
}

fn told(rt: HostRuntime, code: u8, refusal: u8, res: u8) {
    let bytes = [code, 0, 0, 0, 0, 0, 0, 0, 0, 0, 0, 0, 0, 0, 0, 0];
    let answer = Answer {
        refusal,
        result: res,
        running: 1,
    };
    // a line that cannot be written is missed in the file
    let _ = saying::line(rt, explain::call(Line::new(), &bytes, answer));
}
