// Tasks that start: operator start, SCHEDULE and LINK.
ghost use Rattle.std.specs.Prelude.{◌≢◌, ◌<◌};
ghost use Rattle.threads.specs.Threads.{Sound};
ghost use Rattle.tables.specs.State.{read};
ghost use Rattle.tables.specs.Held.{Shows};
ghost use Rattle.meaning.specs.Given.{Gives};
ghost use Rattle.meaning.specs.Services.{stopped, link, schedule, operator_start};
ghost use Rattle.lawful.specs.Accepts.{Condition};
ghost use Rattle.tasking.specs.Starting.{Starting, newcomer};

use blocks::free;
use calls::Call;
use meaning::Given;
use scheduler::ready;
use tables::Tables;
use tables::names::IN_LINK;
use waiting::{conditions, wait};

// A task of the module that a call names, child of `parent` or of none, is made in the lowest free block; the result is that block.
fn newcomer(t: Tables, c: Call, parent: u8) -> Given
    requires { Starting t c }
    ensures { Gives result (newcomer (read t) c parent) }
{
    let k = free::lowest(t.free_tasks);
    Given {
        tables: free::create(t, k, c.number, parent),
        result: k,
    }
}

// A task with no parent is made in the lowest free block, and is made ready.
pub fn start(t: Tables, c: Call) -> Given
    requires { Starting t c }
    ensures { Gives result (operator_start (read t) c) }
{
    let fresh = newcomer(t, c, 0);
    Given {
        tables: ready::make_ready(fresh.tables, fresh.result),
        ..fresh
    }
}

// A task with no parent is made; it is made ready where the condition holds at the call, and else waits for it.
pub fn schedule(t: Tables, c: Call) -> Given
    requires { Starting t c × Condition (read t) c }
    ensures { Gives result (schedule (read t) c) }
{
    let fresh = newcomer(t, c, 0);
    let tables = if conditions::holds(t, c) {
        ready::make_ready(fresh.tables, fresh.result)
    } else {
        wait::wait_for(fresh.tables, fresh.result, c)
    };
    Given { tables, ..fresh }
}

// The caller stops running, and is in the place p.
pub fn stop(t: Tables, p: u8) -> Tables
    requires { Sound t.threads × (t.running < 25) }
    ensures { Shows result (stopped (read t) p) }
{
    let mut r = t;
    let k = r.running;
    r.tasks[k as usize] = blocks::moving(r.clock, r.tasks[k as usize], p);
    r.running = 0;
    r
}

// A child of the caller is made, the caller waits for it in LINK, and the child is made ready.
pub fn link(t: Tables, c: Call) -> Given
    requires { Starting t c × (t.running ≢ 0) }
    ensures { Gives result (link (read t) c) }
{
    let child = newcomer(t, c, t.running);
    let linked = stop(child.tables, IN_LINK);
    Given {
        tables: ready::make_ready(linked, child.result),
        ..child
    }
}
