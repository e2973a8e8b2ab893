// Explain: a load, a call and its answer in words, for the support desk.
//
// It knows what calls and numbers of documents 01 and 02 are called, and nothing of tables. Each function puts its words behind a line; the contracts say
// that they fit. Which words they are is compared with what should be, by the gate. There is no Display: a line is fixed memory, and no clause knows what
// `write!` puts anywhere but into a String, which allocates.
#![tactic(auto)]

mod asked;
mod given;
pub mod refused;

ghost use Rattle.std.specs.Prelude.{◌≤◌, length};

use calls::{Answer, Call};
use lines::Line;

// The load of an image, by its answer.
pub fn load(l: Line, a: Answer) -> Line
    requires { length l ≤ 64 }
    ensures { length result ≤ 500 }
{
    if a.refusal == 0 {
        l.field(b"image loaded with ", u64::from(a.result))
            .text(b" modules")
    } else {
        refused::image(l.text(b"image refused, "), a.refusal)
    }
}

// A call of any bytes, and its answer.
pub fn call(l: Line, bytes: &[u8], a: Answer) -> Line
    requires { length l ≤ 64 }
    ensures { length result ≤ 500 }
{
    match Call::try_from(bytes) {
        Ok(c) => given::answer(asked::call(l, c), c.code, a),
        Err(_) => given::answer(l.text(b"a call cut short"), 0, a),
    }
}
