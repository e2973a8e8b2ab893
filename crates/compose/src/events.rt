// Lists of events: numbers and ranges of numbers, parted by commas, as one set.
ghost use Rattle.std.specs.Prelude.{◌≤◌, IfOk};
ghost use Rattle.compose.specs.Words.{Further, Quotes};

use crate::scan::Scan;
use faults::{Fault, Wrong};

// The end of a range that begins at the number `first`: that number itself, where no dash follows.
fn last<'a>(scan: &mut Scan<'a>, first: u64) -> Result<u64, Wrong<'a>>
    requires { first ≤ 63 }
    ensures further { Further scan.old scan.new }
    ensures low { IfOk result (λ n. n ≤ 63) }
    ensures quotes { Quotes scan.old.line.now result }
{
    if !scan.option(b"-") {
        return Ok(first);
    }
    let end = *scan;
    let last = scan.number(63)?;
    if last < first {
        return Err(end.wrong(Fault::Backwards));
    }
    Ok(last)
}

// One number or one range, put into the set.
fn one<'a>(scan: &mut Scan<'a>, set: u64) -> Result<u64, Wrong<'a>>
    ensures further { Further scan.old scan.new }
    ensures quotes { Quotes scan.old.line.now result }
{
    let first = scan.number(63)?;
    let last = last(scan, first)?;
    Ok(phrases::with_range(set, first, last))
}

// A whole list.
pub fn list<'a>(scan: &mut Scan<'a>) -> Result<u64, Wrong<'a>>
    ensures further { Further scan.old scan.new }
    ensures quotes { Quotes scan.old.line.now result }
{
    let mut set = one(scan, 0)?;
    while scan.option(b",") {
        set = one(scan, set)?;
    }
    Ok(set)
}
