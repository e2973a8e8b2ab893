// Events: SIGNAL, TEST EVENT and WAIT.
ghost use Rattle.std.specs.Prelude.{◌≡◌, ◌≢◌, ◌≤◌};
ghost use Rattle.tables.specs.State.{read};
ghost use Rattle.tables.specs.Held.{Shows};
ghost use Rattle.meaning.specs.Services.{signal, test_event, wait};
ghost use Rattle.words.specs.Counting.{bit};
ghost use Rattle.lawful.specs.Accepts.{Condition};
ghost use Rattle.lawful.specs.Tables.{LawfulTables};

use calls::Call;
use tables::Tables;
use waiting::{conditions, wait, wake};
use words::sets;

// The event has been signalled, on or off. It is on, and every event waiter whose condition holds is made ready; or it is off, and nobody is woken.
pub fn signal(t: Tables, c: Call) -> Tables
    requires { LawfulTables t × (c.number ≤ 63) × (bit t.directory.defined c.number ≡ 1) }
    ensures { Shows result (signal (read t) c).state }
{
    let mut u = t;
    u.signalled = sets::adding(u.signalled, c.number as u32);
    if c.value == 1 {
        u.on = sets::adding(u.on, c.number as u32);
        return wake::wake_events(u);
    }
    u.on = sets::dropping(u.on, c.number as u32);
    u
}

// The result of the call, a number of its answer and so none of an enum: 1 for an event that is off, 2 for one that is on, 3 for one that has not been
// signalled since the load.
pub fn test_event(t: Tables, c: Call) -> u8
    ensures { result ≡ (test_event (read t) c).result }
{
    if !sets::has(t.signalled, c.number as u32) {
        return 3;
    }
    if sets::has(t.on, c.number as u32) {
        2
    } else {
        1
    }
}

// The caller goes on running where the condition holds at the call, and else waits for it.
pub fn wait(t: Tables, c: Call) -> Tables
    requires { LawfulTables t × (t.running ≢ 0) × Condition (read t) c }
    ensures { Shows result (wait (read t) c).state }
{
    if conditions::holds(t, c) {
        return t;
    }
    let mut u = t;
    let k = u.running;
    u.running = 0;
    wait::wait_for(u, k, c)
}
