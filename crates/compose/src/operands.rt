// What follows a line's first word, by its shape: the numbers of a call, or the module of a line of the image. Numbers that a line does not name are 0.
ghost use Rattle.std.specs.Prelude.{◌≤◌, IfOk};
ghost use Rattle.compose.specs.Calls.{Follows};
ghost use Rattle.compose.specs.Words.{Further, Quotes};

use crate::events;
use crate::scan::Scan;
use crate::verbs::Shape;
use calls::Call;
use faults::{Fault, Wrong};
use image::Entry;

// start, link, test, check: a number.
fn number<'a>(scan: &mut Scan<'a>) -> Result<Call, Wrong<'a>>
    ensures further { Further scan.old scan.new }
    ensures kind { Follows result }
    ensures quotes { Quotes scan.old.line.now result }
{
    Ok(Call {
        number: scan.byte()?,
        ..Call::default()
    })
}

// signal: an event, and 'on' or 'off'.
fn switch<'a>(scan: &mut Scan<'a>) -> Result<Call, Wrong<'a>>
    ensures further { Further scan.old scan.new }
    ensures kind { Follows result }
    ensures quotes { Quotes scan.old.line.now result }
{
    let number = scan.byte()?;
    let on = scan.option(b"on");
    if !on {
        scan.expect(b"off", Fault::WantsSwitch)?;
    }
    Ok(Call {
        number,
        value: u8::from(on),
        ..Call::default()
    })
}

// read, write: a device, and how many bytes.
fn device<'a>(scan: &mut Scan<'a>) -> Result<Call, Wrong<'a>>
    ensures further { Further scan.old scan.new }
    ensures kind { Follows result }
    ensures quotes { Quotes scan.old.line.now result }
{
    scan.expect(b"device", Fault::WantsDevice)?;
    let number = scan.byte()?;
    scan.expect(b",", Fault::WantsComma)?;
    let amount = scan.amount()?;
    scan.expect(b"bytes", Fault::WantsBytes)?;
    Ok(Call {
        number,
        amount,
        ..Call::default()
    })
}

// A condition of kind 1, behind 'when': a count, 'of' and a list of events.
fn when<'a>(scan: &mut Scan<'a>) -> Result<Call, Wrong<'a>>
    ensures further { Further scan.old scan.new }
    ensures kind { Follows result }
    ensures quotes { Quotes scan.old.line.now result }
{
    let value = scan.byte()?;
    scan.expect(b"of", Fault::WantsOf)?;
    Ok(Call {
        kind: 1,
        value,
        events: events::list(scan)?,
        ..Call::default()
    })
}

// A condition of kind 2 or 3: a time or an interval.
fn timed<'a>(scan: &mut Scan<'a>, kind: u8) -> Result<Call, Wrong<'a>>
    requires { kind ≤ 3 }
    ensures further { Further scan.old scan.new }
    ensures kind { Follows result }
    ensures quotes { Quotes scan.old.line.now result }
{
    Ok(Call {
        kind,
        amount: scan.amount()?,
        ..Call::default()
    })
}

// schedule, wait: a condition.
fn condition<'a>(scan: &mut Scan<'a>) -> Result<Call, Wrong<'a>>
    ensures further { Further scan.old scan.new }
    ensures kind { Follows result }
    ensures quotes { Quotes scan.old.line.now result }
{
    if scan.option(b"when") {
        return when(scan);
    }
    if scan.option(b"at") {
        return timed(scan, 2);
    }
    scan.expect(b"after", Fault::WantsCondition)?;
    timed(scan, 3)
}

// schedule: a module, and a condition or the line's end.
fn scheduled<'a>(scan: &mut Scan<'a>) -> Result<Call, Wrong<'a>>
    ensures further { Further scan.old scan.new }
    ensures kind { Follows result }
    ensures quotes { Quotes scan.old.line.now result }
{
    let number = scan.byte()?;
    let rest = if scan.ended() {
        Call::default()
    } else {
        condition(scan)?
    };
    Ok(Call { number, ..rest })
}

// A call of no numbers, whose second word is this one.
fn bare<'a>(scan: &mut Scan<'a>, name: &[u8], fault: Fault) -> Result<Call, Wrong<'a>>
    ensures further { Further scan.old scan.new }
    ensures kind { Follows result }
    ensures quotes { Quotes scan.old.line.now result }
{
    scan.expect(name, fault)?;
    Ok(Call::default())
}

// What follows the first word of a call of this shape. The match stays: its cases are an enum's, and a closure for each row would have to be stored
// in the table and handed out, which the toolchain refuses.
pub fn read<'a>(scan: &mut Scan<'a>, shape: Shape) -> Result<Call, Wrong<'a>>
    ensures further { Further scan.old scan.new }
    ensures kind { Follows result }
    ensures quotes { Quotes scan.old.line.now result }
{
    match shape {
        Shape::Bare => Ok(Call::default()),
        Shape::Number => number(scan),
        Shape::Scheduled => scheduled(scan),
        Shape::Condition => condition(scan),
        Shape::Switch => switch(scan),
        Shape::Device => device(scan),
        Shape::Check => bare(scan, b"check", Fault::WantsCheck),
        Shape::Done => bare(scan, b"done", Fault::WantsDone),
    }
}

// Any call, by its six numbers: code, kind, number, value, amount, set.
pub fn any<'a>(scan: &mut Scan<'a>) -> Result<Call, Wrong<'a>>
    ensures further { Further scan.old scan.new }
    ensures quotes { Quotes scan.old.line.now result }
{
    Ok(Call {
        code: scan.byte()?,
        kind: scan.byte()?,
        number: scan.byte()?,
        value: scan.byte()?,
        amount: scan.amount()?,
        events: scan.number(u64::MAX)?,
    })
}

// module: its level and units, perhaps 'reentrant' as its flag, perhaps an entry point.
pub fn module<'a>(scan: &mut Scan<'a>) -> Result<Entry, Wrong<'a>>
    ensures further { Further scan.old scan.new }
    ensures flags { IfOk result (λ e. e.flags ≤ 1) }
    ensures quotes { Quotes scan.old.line.now result }
{
    scan.expect(b"level", Fault::WantsLevel)?;
    let level = scan.byte()?;
    scan.expect(b"units", Fault::WantsUnits)?;
    let units = scan.byte()?;
    let flags = u16::from(scan.option(b"reentrant"));
    let point = if scan.option(b"entry") {
        scan.amount()?
    } else {
        0
    };
    Ok(Entry {
        level,
        units,
        flags,
        point,
    })
}
