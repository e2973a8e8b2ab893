// What can be wrong with a line of a session, and what is said of it on standard error: one line, with the number of the line that is refused. A word of a
// line is any bytes, so that what is said is bytes too, and no `Display`.
#![tactic(auto)]

ghost use Rattle.phrases.specs.Words.{Within};

use text::decimals;
use text::word::Word;

// What is wrong with a word, or with the line.
#[derive(Clone, Copy, Debug, PartialEq, Eq)]
pub enum Fault {
    // nothing in `compose` makes it; it stays because `refused` answers for it
    Fine,
    Unknown,
    NotCall,
    Late,
    Twice,
    Full,
    Long,
    Surplus,
    Large(u64),
    Backwards,
    WantsNumber,
    WantsLevel,
    WantsUnits,
    WantsDevice,
    WantsComma,
    WantsBytes,
    WantsOf,
    WantsSwitch,
    WantsCheck,
    WantsDone,
    WantsCondition,
}

// What is wrong, and with which word of the line: an empty one stands for the line's end.
#[derive(Clone, Copy, Debug, PartialEq, Eq)]
pub struct Wrong<'a> {
    pub fault: Fault,
    pub line: &'a [u8],
    pub word: Word,
    ghost inside: { Within line.now 0 word },
}

fn say(rt: HostRuntime, text: &[u8]) {
    // standard error is the last place that could tell of a failure
    let _ = pipes::give(&rt, &mut rt.stderr(), text);
}

fn say_number(rt: HostRuntime, number: u64) {
    say(rt, decimals::spell(number).as_slice());
}

fn say_line(rt: HostRuntime, number: u64) {
    say(rt, b"line ");
    say_number(rt, number);
    say(rt, b": ");
}

// The word that is wrong, between quotes.
fn say_word(rt: HostRuntime, wrong: Wrong<'_>) {
    say(rt, b"'");
    say(rt, &wrong.line[wrong.word.from..wrong.word.to]);
    say(rt, b"'");
}

// What should have stood there, of a fault that wants a word.
fn wanted(fault: Fault) -> &'static [u8] {
    match fault {
        Fault::WantsNumber => b"a number",
        Fault::WantsLevel => b"'level'",
        Fault::WantsUnits => b"'units'",
        Fault::WantsDevice => b"'device'",
        Fault::WantsComma => b"','",
        Fault::WantsBytes => b"'bytes'",
        Fault::WantsOf => b"'of'",
        Fault::WantsSwitch => b"'on' or 'off'",
        Fault::WantsCheck => b"'check'",
        Fault::WantsDone => b"'done'",
        _ => b"'when', 'at' or 'after'",
    }
}

// A word that stands where another should, or the line's end there.
fn say_instead(rt: HostRuntime, wrong: Wrong<'_>) {
    if wrong.word.from == wrong.word.to {
        say(rt, b"the line ends");
    } else {
        say_of(rt, wrong, b" stands");
    }
    say(rt, b" where ");
    say(rt, wanted(wrong.fault));
    say(rt, b" is wanted");
}

fn say_large(rt: HostRuntime, wrong: Wrong<'_>, most: u64) {
    say_of(rt, wrong, b" is more than ");
    say_number(rt, most);
    say(rt, b", the most that fits here");
}

// A word, and what is wrong with it.
fn say_of(rt: HostRuntime, wrong: Wrong<'_>, text: &[u8]) {
    say_word(rt, wrong);
    say(rt, text);
}

fn say_fault(rt: HostRuntime, wrong: Wrong<'_>) {
    match wrong.fault {
        Fault::Unknown => say_of(rt, wrong, b" is neither a line of the image nor a call"),
        Fault::NotCall => say_of(rt, wrong, b" is not a call"),
        Fault::Late => say_of(
            rt,
            wrong,
            b" belongs to the image, which ended at the first call",
        ),
        Fault::Twice => say_of(rt, wrong, b" was given before"),
        Fault::Full => say_of(rt, wrong, b" is one too many: an image has at most 32"),
        Fault::Surplus => say_of(rt, wrong, b" is one word too many"),
        Fault::Backwards => say_of(rt, wrong, b" is below the first number of its range"),
        Fault::Large(most) => say_large(rt, wrong, most),
        Fault::Long => say(rt, b"it has more than 200 bytes"),
        _ => say_instead(rt, wrong),
    }
}

fn say_end(rt: HostRuntime) {
    say(rt, b"; nothing after this line was read\n");
}

// A line that is refused.
pub fn refused(rt: HostRuntime, number: u64, wrong: Wrong<'_>) {
    say_line(rt, number);
    say_fault(rt, wrong);
    say_end(rt);
}

// Why an image is not written. A refusal stays a number here: docs/ENTRIES.md promises these functions for any number.
fn say_image(rt: HostRuntime, refusal: u8) {
    say(rt, b"the image is refused by ");
    say_number(rt, refusal.into());
    say(
        rt,
        match refusal {
            4 => b": it has no module",
            5 => b": 'every' is missing, or 0",
            _ => b": a module's level is not 1 to 3, or its units are above 64",
        },
    );
}

// An image that is refused where it ends, at the first call.
pub fn refused_image(rt: HostRuntime, number: u64, refusal: u8) {
    say_line(rt, number);
    say_image(rt, refusal);
    say_end(rt);
}

// An image that is refused where the input ends.
pub fn refused_at_end(rt: HostRuntime, refusal: u8) {
    say(rt, b"at the end: ");
    say_image(rt, refusal);
    say(rt, b"\n");
}
