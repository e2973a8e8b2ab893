// The lines of a session, by their first words: one table.
ghost use Rattle.std.specs.Prelude.{◌≡◌, true, IfSome, IsNone};
ghost use Rattle.compose.specs.Calls.{verb_known};
ghost use Rattle.compose.specs.Words.{Further, next_word};

use crate::scan::Scan;
use calls::codes;

// What follows the first word of a call: `operands` reads it.
#[derive(Clone, Copy, Debug, PartialEq, Eq)]
pub enum Shape {
    Bare,
    Number,
    Scheduled,
    Condition,
    Switch,
    Device,
    Check,
    Done,
}

// What a first word stands for: a line of the image, any call by its numbers, or the call of a code.
#[derive(Clone, Copy, Debug, PartialEq, Eq)]
pub enum Verb {
    Every,
    Events,
    Module,
    Any,
    Call(u8, Shape),
}

// A row: the first word, and what it stands for.
#[derive(Clone, Copy)]
struct Row(&'static [u8], Verb);

// A new line of a session is a row, here and in docs/WORDS.md.
const ROWS: [Row; 19] = [
    Row(b"every", Verb::Every),
    Row(b"events", Verb::Events),
    Row(b"module", Verb::Module),
    Row(b"call", Verb::Any),
    Row(b"freemain", Verb::Call(codes::FREEMAIN, Shape::Bare)),
    Row(b"link", Verb::Call(codes::LINK, Shape::Number)),
    Row(b"end", Verb::Call(codes::END, Shape::Bare)),
    Row(b"schedule", Verb::Call(codes::SCHEDULE, Shape::Scheduled)),
    Row(b"wait", Verb::Call(codes::WAIT, Shape::Condition)),
    Row(b"signal", Verb::Call(codes::SIGNAL, Shape::Switch)),
    Row(b"test", Verb::Call(codes::TEST_EVENT, Shape::Number)),
    Row(b"dispatch", Verb::Call(codes::DISPATCH_CHECK, Shape::Check)),
    Row(b"read", Verb::Call(codes::READ, Shape::Device)),
    Row(b"write", Verb::Call(codes::WRITE, Shape::Device)),
    Row(b"check", Verb::Call(codes::CHECK, Shape::Number)),
    Row(b"timer", Verb::Call(codes::TIMER, Shape::Bare)),
    Row(b"io", Verb::Call(codes::IO_DONE, Shape::Done)),
    Row(b"program", Verb::Call(codes::PROGRAM_CHECK, Shape::Check)),
    Row(b"start", Verb::Call(codes::OPERATOR_START, Shape::Number)),
];

// What the next word stands for, which is then passed; none where no row has it.
pub fn find(scan: &mut Scan<'_>) -> Option<Verb>
    ensures known { IfSome result (λ v. verb_known v ≡ true) }
    ensures further { Further scan.old scan.new }
    ensures behind { IfSome result (λ v. scan.new.at ≡ (next_word scan.old).to) }
    ensures left { IsNone result → scan.new ≡ scan.old }
{
    for row in &ROWS {
        if scan.option(row.0) {
            return Some(row.1);
        }
    }
    None
}
