// Conditions: whether one holds, and the clock reading of kinds 2 and 3.
ghost use Rattle.std.specs.Prelude.{◌≡◌, leb};
ghost use Rattle.std.specs.Int.Bits.{bit_and};
ghost use Rattle.words.specs.Words.{size};
ghost use Rattle.tables.specs.State.{read};
ghost use Rattle.meaning.specs.Conditions.{due_of, holds};

use calls::Call;
use tables::Tables;

// A kind stays a number: `holds` and `due_of` of the meaning are of any byte of a call, and read each other number as kind 3, which an enum of the four kinds
// has no place for.

// At least `count` of the events are on.
pub fn enough_on(on: u64, count: u32, events: u64) -> bool
    ensures { result ≡ leb count (size (bit_and events on)) }
{
    count <= words::sets::ones(events & on)
}

// The clock reading of kinds 2 and 3. It may lie past the clock's end.
pub fn due(t: Tables, c: Call) -> u64
    ensures { result ≡ due_of (read t) c }
{
    if c.kind == 2 {
        return c.amount as u64;
    }
    (t.clock as u64) + (c.amount as u64)
}

// The condition of a call holds.
pub fn holds(t: Tables, c: Call) -> bool
    ensures { result ≡ holds (read t) c }
{
    if c.kind == 0 {
        return true;
    }
    if c.kind == 1 {
        return enough_on(t.on, c.value as u32, c.events);
    }
    due(t, c) <= (t.clock as u64)
}
