// What the rows of the table test, on numbers that are taken out of the tables.
ghost use Rattle.std.specs.Prelude.{not, ◌&&◌, ◌||◌, [], ◌∷◌, ◌≡◌, ◌+◌, eqb, ltb, get_or};
ghost use Rattle.std.specs.Int.Bits.{bit_and};
ghost use Rattle.words.specs.Words.{◌among◌, has, size};
ghost use Rattle.tables.specs.Blocks.{Free, no_request};
ghost use Rattle.tables.specs.State.{read};
ghost use Rattle.calls.specs.Calls.{FREEMAIN, SIGNAL, WAIT};
ghost use Rattle.meaning.specs.Finish.{pending};
ghost use Rattle.meaning.specs.Refusals.{starts, bad_count, clock_end};

use blocks::pending;
use calls::{Call, codes};
use tables::names::FREE;
use tables::{Request, Tables};
use words::sets;

// The clock's end.
pub const CLOCK_END: u32 = u32::MAX;

// The code is one of two.
pub fn either(code: u8, a: u8, b: u8) -> bool
    ensures { result ≡ (code among (a ∷ b ∷ [])) }
{
    (a == code) | (b == code)
}

// "FREEMAIN while any of the caller's requests is queued or on the channel" (document 02, E4). The requests are looked at for a FREEMAIN alone.
pub fn gives_under_read(t: Tables, code: u8) -> bool
    ensures { result ≡ (eqb code FREEMAIN && pending (read t) t.running) }
{
    if code != codes::FREEMAIN {
        return false;
    }
    pending::pending(t, t.running)
}

// "(5, 7, 35)"
pub fn starts(c: Call) -> bool
    ensures { result ≡ starts c }
{
    (codes::LINK == c.code) | either(c.code, codes::SCHEDULE, codes::OPERATOR_START)
}

// "event undefined or above 63"
pub fn undefined(defined: u64, event: u8) -> bool
    ensures { result ≡ (ltb 63 event || not (has defined event)) }
{
    (63 < event) | !sets::has(defined, event as u32)
}

// "byte count 0 or above 65,535"
pub fn bad_count(count: u32) -> bool
    ensures { result ≡ bad_count count }
{
    (count == 0) | (65535 < count)
}

// "SIGNAL value not 0 or 1"
pub fn bad_value(c: Call) -> bool
    ensures { result ≡ (eqb c.code SIGNAL && ltb 1 c.value) }
{
    (c.code == codes::SIGNAL) & (1 < c.value)
}

// A request block that is held by the caller. A number past the last names none.
pub fn held(requests: &[Request], number: u8, caller: u8) -> bool
    ensures { result ≡ (not (eqb (get_or requests.now number no_request).place Free) && eqb (get_or requests.now number no_request).owner caller) }
{
    match requests.get(number as usize) {
        Some(block) => (block.place != FREE) & (block.owner == caller),
        None => false,
    }
}

// "kind not 0 to 3, or 0 for WAIT; or kind 1 with an undefined event in the set"
pub fn bad_kind(defined: u64, c: Call) -> bool
    ensures { result ≡ (ltb 3 c.kind || eqb c.code WAIT && eqb c.kind 0 || eqb c.kind 1 && not (eqb (bit_and c.events defined) c.events)) }
{
    (3 < c.kind)
        | (c.code == codes::WAIT) & (c.kind == 0)
        | (c.kind == 1) & ((c.events & defined) != c.events)
}

// "count 0 or more than the number of events in the set"
pub fn bad_events(count: u8, events: u64) -> bool
    ensures { result ≡ (eqb count 0 || ltb (size events) count) }
{
    (count == 0) | (sets::ones(events) < count as u32)
}

// "clock plus interval passes the clock's end"
pub fn past_end(clock: u32, interval: u32) -> bool
    ensures { result ≡ ltb clock_end (clock + interval) }
{
    clock.checked_add(interval).is_none()
}
