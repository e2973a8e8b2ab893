// Refusals: the rows of the table that look at a call and the tables, and the first of them that applies.
//
// It answers for the table of document 01's 'Calls' from 24 on, with the rows of document 02 in their places. It reads the tables and never changes them; what
// an accepted call does is not known here.
#![tactic(auto)]

mod tests;

ghost use Rattle.std.specs.Prelude.{◌≡◌, true, false, MatchResult};
ghost use Rattle.words.specs.Rows.{first_of};
ghost use Rattle.answers.specs.Answer.{refused_by};
ghost use Rattle.tables.specs.State.{read};
ghost use Rattle.meaning.specs.Refusals.{call_rows};
ghost use Rattle.refusals.specs.Parts.{code_rows, named_rows, carried_rows, condition_rows, room_rows};

use answers::Refusal;
use answers::Refusal::{
    Amount, ChannelEmpty, ClockEnd, Count, Kind, NoCode, NoDevice, NoEvent, NoModule,
    NoRequestBlock, NoTask, NoTaskBlock, NotHeld, PastEnd, Pending,
};
use calls::{Call, codes};
use tables::Tables;
use tests::{
    CLOCK_END, bad_count, bad_events, bad_kind, bad_value, either, gives_under_read, past_end,
    undefined,
};

// The first row of the table that applies to a call, if one does. The rows stand in five parts, in the table's order, one row to a line.
pub fn check(t: Tables, c: Call) -> Result<(), Refusal>
    ensures { refused_by result ≡ first_of (call_rows (read t) c) }
{
    by_code(t, c)?;
    by_names(t, c)?;
    by_carried(t, c)?;
    by_condition(t, c)?;
    by_room(t, c)
}

// The code and its caller.
#[tactic(auto, unfolding(meaning::specs::Refusals::call_rows, crate::specs::Parts::rows_to, words::specs::Rows::first_of))]
fn by_code(t: Tables, c: Call) -> Result<(), Refusal>
    ensures { refused_by result ≡ first_of (code_rows (read t) c) }
{
    refuse(!codes::is_known(c.code), NoCode)?;
    refuse(codes::needs_task(c.code) & (t.running == 0), NoTask)?;
    refuse(gives_under_read(t, c.code), Pending)
}

// What the call names.
#[tactic(auto, unfolding(meaning::specs::Refusals::call_rows, crate::specs::Parts::rows_to, crate::specs::Parts::rows_from, words::specs::Rows::first_of))]
fn by_names(t: Tables, c: Call) -> Result<(), Refusal>
    ensures { refused_by result ≡ first_of (named_rows (read t) c) }
{
    let starts = tests::starts(c);
    let tells = either(c.code, codes::SIGNAL, codes::TEST_EVENT);
    refuse(starts & (t.directory.modules <= c.number as u32), NoModule)?;
    refuse(tells & undefined(t.directory.defined, c.number), NoEvent)
}

// What it carries.
#[tactic(auto, unfolding(meaning::specs::Refusals::call_rows, crate::specs::Parts::rows_to, crate::specs::Parts::rows_from, words::specs::Rows::first_of))]
fn by_carried(t: Tables, c: Call) -> Result<(), Refusal>
    ensures { refused_by result ≡ first_of (carried_rows (read t) c) }
{
    let transfers = either(c.code, codes::READ, codes::WRITE);
    let held = tests::held(&t.requests, c.number, t.running);
    refuse(transfers & (249 < c.number), NoDevice)?;
    refuse(transfers & bad_count(c.amount) | bad_value(c), Amount)?;
    refuse((c.code == codes::CHECK) & !held, NotHeld)
}

// Its condition.
#[tactic(auto, unfolding(meaning::specs::Refusals::call_rows, crate::specs::Parts::rows_to, crate::specs::Parts::rows_from, words::specs::Rows::first_of, meaning::specs::Conditions::undefined_in))]
fn by_condition(t: Tables, c: Call) -> Result<(), Refusal>
    ensures { refused_by result ≡ first_of (condition_rows (read t) c) }
{
    let waits = either(c.code, codes::SCHEDULE, codes::WAIT);
    let for_events = waits & (c.kind == 1);
    let for_time = waits & (c.kind == 3);
    refuse(waits & bad_kind(t.directory.defined, c), Kind)?;
    refuse(for_events & bad_events(c.value, c.events), Count)?;
    refuse(for_time & past_end(t.clock, c.amount), PastEnd)
}

// What the tables still have.
#[tactic(auto, unfolding(meaning::specs::Refusals::call_rows, crate::specs::Parts::rows_from, words::specs::Rows::first_of))]
fn by_room(t: Tables, c: Call) -> Result<(), Refusal>
    ensures { refused_by result ≡ first_of (room_rows (read t) c) }
{
    let starts = tests::starts(c);
    let transfers = either(c.code, codes::READ, codes::WRITE);
    refuse(starts & (t.free_tasks == 0), NoTaskBlock)?;
    refuse(transfers & (t.free_requests == 0), NoRequestBlock)?;
    refuse((c.code == codes::IO_DONE) & (t.channel == 0), ChannelEmpty)?;
    refuse((c.code == codes::TIMER) & (t.clock == CLOCK_END), ClockEnd)
}

// One row: the refusal, where it applies.
fn refuse(applies: bool, by: Refusal) -> Result<(), Refusal>
    ensures { MatchResult result (λ u. applies ≡ false) (λ e. (applies ≡ true) × (e ≡ by)) }
{
    if applies { Err(by) } else { Ok(()) }
}
