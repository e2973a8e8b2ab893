// Each accepted call by its code.
ghost use Rattle.std.specs.Prelude.{◌≡◌};
ghost use Rattle.tables.specs.State.{read};
ghost use Rattle.meaning.specs.Given.{Gives};
ghost use Rattle.meaning.specs.Services.{effect};
ghost use Rattle.lawful.specs.Accepts.{Accepts};
ghost use Rattle.lawful.specs.Tables.{LawfulTables};
ghost use Rattle.threads.specs.Threads.{Sound};
ghost use Rattle.meaning.specs.Services.{test_event};

use crate::events;
use calls::{Call, codes};
use channel::{check, done, transfer};
use meaning::Given;
use tables::Tables;
use tasking::{starting, stopping, turns};

// The result of most calls is 1.
fn one(t: Tables) -> Given
    ensures { (result.tables ≡ t) × (result.result ≡ 1) }
{
    Given {
        tables: t,
        result: 1,
    }
}

// TEST EVENT: the result says whether the event is on, off, or was never signalled.
fn tell(t: Tables, c: Call) -> Given
    requires { Sound t.threads }
    ensures { Gives result (test_event (read t) c) }
{
    Given {
        tables: t,
        result: events::test_event(t, c),
    }
}

// What an accepted call does, before the dispatch at its end: a match on the code. A closure for each code would have to be stored and handed out, which the
// toolchain refuses.
pub fn effect(t: Tables, c: Call) -> Given
    requires { LawfulTables t × Accepts (read t) c }
    ensures { Gives result (effect (read t) c) }
{
    let code = c.code;
    match code {
        codes::FREEMAIN => one(stopping::freemain(t)),
        codes::LINK => starting::link(t, c),
        codes::END => one(stopping::end(t)),
        codes::SCHEDULE => starting::schedule(t, c),
        codes::WAIT => one(events::wait(t, c)),
        codes::SIGNAL => one(events::signal(t, c)),
        codes::TEST_EVENT => tell(t, c),
        codes::DISPATCH_CHECK => one(turns::dispatch_check(t)),
        // READ and WRITE stand apart: of two numbers in one arm a proof does not learn which came (tried).
        codes::READ => transfer::transfer(t, c),
        codes::WRITE => transfer::transfer(t, c),
        codes::CHECK => one(check::check(t, c)),
        codes::TIMER => one(turns::timer(t)),
        codes::IO_DONE => one(done::io_done(t)),
        codes::PROGRAM_CHECK => one(stopping::program_check(t)),
        codes::OPERATOR_START => starting::start(t, c),
        // 24 refuses any other.
        _ => Given {
            tables: t,
            result: 0,
        },
    }
}
