// A session as it is read: the line so far, the image so far, and what each line does.
ghost use Rattle.compose.specs.Words.{Further, Quotes};

use crate::scan::Scan;
use crate::verbs::Verb;
use crate::{events, made, operands, verbs};
use arrayvec::ArrayVec;
use calls::Call;
use faults::{Fault, Wrong};
use image::{Directory, Entry};
use memchr::memchr;
use saying::Trouble;
use std::mem;
use text::word::Word;

// The line so far and its number; the image so far, and whether `every` and `events` were given (0 may be given, and is no second time either: so the
// directory cannot tell); whether calls have begun, and how many were written. The two flags stay beside the directory: an Option for each would hold what the
// directory has to hold too, or leave it half made for `made` and `image::write`, which want a whole one, and be no plainer.
#[derive(Drop)]
pub struct Session {
    pub line: ArrayVec<u8, 200>,
    pub number: u64,
    pub directory: Directory,
    pub timed: bool,
    pub listed: bool,
    pub calling: bool,
    pub calls: u64,
}

// The session is over, and what there was to say of it was said.
#[derive(Clone, Copy, Debug, PartialEq, Eq)]
pub struct Over;

// What a line says: something of the image, or a call.
#[derive(Clone, Copy, Debug, PartialEq, Eq)]
enum Says {
    Every(u8),
    Events(u64),
    Module(Entry),
    Call(Call),
}

// Writes bytes, all of them; where that fails, it is said.
fn written(rt: HostRuntime, s: &Session, bytes: &[u8]) -> Result<(), Over> {
    if pipes::give(&rt, &mut rt.stdout(), bytes).is_err() {
        Trouble::Unwritten.say(rt, Some(s.calls));
        return Err(Over);
    }
    Ok(())
}

// A line in which something is wrong.
fn refused(rt: HostRuntime, s: &Session, wrong: Wrong<'_>) -> Result<(), Over> {
    faults::refused(rt, s.number, wrong);
    Err(Over)
}

// The image ends, unless it has: it is written, or refused.
fn closed(rt: HostRuntime, s: &mut Session, at_end: bool) -> Result<(), Over> {
    if s.calling {
        return Ok(());
    }
    s.calling = true;
    let mut bytes = [0; 512];
    if let Err(refusal) = image::write(s.directory, &mut bytes) {
        if at_end {
            faults::refused_at_end(rt, u8::from(refusal));
        } else {
            faults::refused_image(rt, s.number, u8::from(refusal));
        }
        return Err(Over);
    }
    written(rt, s, &bytes)
}

// A call, done: the first one ends the image.
fn called(rt: HostRuntime, s: &mut Session, call: Call) -> Result<(), Over> {
    closed(rt, s, false)?;
    written(rt, s, &<[u8; 16]>::from(call))?;
    s.calls = s.calls.wrapping_add(1);
    Ok(())
}

// What a line says, done.
fn done(rt: HostRuntime, s: &mut Session, says: Says) -> Result<(), Over> {
    match says {
        Says::Every(n) => {
            s.timed = true;
            s.directory = made::every(s.directory, n);
        }
        Says::Events(set) => {
            s.listed = true;
            s.directory = made::events(s.directory, set);
        }
        Says::Module(entry) => s.directory = made::with_module(s.directory, entry),
        Says::Call(call) => return called(rt, s, call),
    }
    Ok(())
}

// What is wrong with the first word of a line, before the words behind it are read.
fn out_of_place(s: &Session, verb: Verb) -> Option<Fault> {
    match verb {
        Verb::Any | Verb::Call(_, _) => None,
        _ if s.calling => Some(Fault::Late),
        Verb::Every => s.timed.then_some(Fault::Twice),
        Verb::Events => s.listed.then_some(Fault::Twice),
        Verb::Module => (32 <= s.directory.modules).then_some(Fault::Full),
    }
}

// What stands behind a first word. The match stays: its cases are an enum's, and a closure for each row would have to be stored in the table and handed out,
// which the toolchain refuses.
fn behind<'a>(scan: &mut Scan<'a>, verb: Verb) -> Result<Says, Wrong<'a>>
    ensures further { Further scan.old scan.new }
    ensures quotes { Quotes scan.old.line.now result }
{
    Ok(match verb {
        Verb::Every => Says::Every(scan.byte()?),
        Verb::Events => Says::Events(events::list(scan)?),
        Verb::Module => Says::Module(operands::module(scan)?),
        Verb::Any => Says::Call(operands::any(scan)?),
        Verb::Call(code, shape) => Says::Call(made::call(code, operands::read(scan, shape)?)),
    })
}

// What a line says, without its comment: nothing where no word is in it.
fn understood<'a>(s: &Session, line: &'a [u8]) -> Result<Option<Says>, Wrong<'a>>
    ensures { Quotes line.now result }
{
    let mut scan = Scan::new(line);
    let first = scan;
    if scan.ended() {
        return Ok(None);
    }
    let Some(verb) = verbs::find(&mut scan) else {
        return Err(first.wrong(if s.calling {
            Fault::NotCall
        } else {
            Fault::Unknown
        }));
    };
    if let Some(fault) = out_of_place(s, verb) {
        return Err(first.wrong(fault));
    }
    let says = behind(&mut scan, verb)?;
    scan.end()?;
    Ok(Some(says))
}

// One line: it is read up to its comment.
fn line_read(rt: HostRuntime, s: &mut Session, bytes: &[u8]) -> Result<(), Over> {
    let cut = memchr(b'#', bytes).unwrap_or(bytes.len());
    match understood(s, &bytes[..cut]) {
        Ok(Some(says)) => done(rt, s, says),
        Ok(None) => Ok(()),
        Err(wrong) => refused(rt, s, wrong),
    }
}

// The line so far has ended: it is read, and the next begins.
fn line_ended(rt: HostRuntime, s: &mut Session) -> Result<(), Over> {
    let line = mem::take(&mut s.line);
    line_read(rt, s, &line)?;
    s.number = s.number.wrapping_add(1);
    Ok(())
}

// A line of more bytes than it may have.
fn too_long(rt: HostRuntime, s: &Session) -> Result<(), Over> {
    let wrong = Wrong {
        fault: Fault::Long,
        line: b"",
        word: Word { from: 0, to: 0 },
    };
    refused(rt, s, wrong)
}

impl Session {
    pub fn new() -> Session {
        Session {
            line: ArrayVec::new(),
            number: 1,
            directory: Directory::default(),
            timed: false,
            listed: false,
            calling: false,
            calls: 0,
        }
    }

    // Bytes of the text, as many as came, until one line is refused.
    pub fn feed(&mut self, rt: HostRuntime, bytes: &[u8]) -> Result<(), Over> {
        for byte in bytes {
            if *byte == b'\n' {
                line_ended(rt, self)?;
            } else if self.line.is_full() {
                return too_long(rt, self);
            } else {
                self.line.push(*byte);
            }
        }
        Ok(())
    }

    // The text has ended: its last line may have no line end, and an image without calls ends here.
    pub fn finish(&mut self, rt: HostRuntime) -> Result<(), Over> {
        line_ended(rt, self)?;
        closed(rt, self, true)
    }
}
