// Whose turn it is: DISPATCH CHECK and the timer.
ghost use Rattle.std.specs.Prelude.{◌≢◌};
ghost use Rattle.calls.specs.declared.Call.{Call};
ghost use Rattle.threads.specs.Threads.{Outside};
ghost use Rattle.tables.specs.State.{read, leading};
ghost use Rattle.tables.specs.Held.{Shows};
ghost use Rattle.meaning.specs.Refusals.{clock_end};
ghost use Rattle.meaning.specs.Services.{dispatch_check, timer};
ghost use Rattle.lawful.specs.Tables.{LawfulTables};

use crate::starting;
use scheduler::dispatch;
use tables::Tables;
use tables::names::READY;
use waiting::wake;

// The task k, of no queue, at the front of the queue q.
fn lead(t: Tables, q: u8, k: u8) -> Tables
    requires { Outside t.threads q k }
    ensures { Shows result (leading (read t) q k) }
{
    let mut r = t;
    r.threads = threads::push(r.threads, q, k);
    r
}

// Where a strictly better level is ready, the caller goes to the front of its own ready level and stops running.
pub fn dispatch_check(t: Tables) -> Tables
    requires { LawfulTables t × (t.running ≢ 0) }
    ensures { (c : Call) → Shows result (dispatch_check (read t) c).state }
{
    let k = t.running;
    let e = blocks::entry_of(t, k);
    let best = dispatch::best_ready(t);
    if (0 < best) & (best < e.level) {
        let stopped = starting::stop(t, READY);
        return lead(stopped, e.level, k);
    }
    t
}

// The clock plus 1; where N divides it, every task whose time has come is made ready, in queue order.
pub fn timer(t: Tables) -> Tables
    requires { LawfulTables t × (t.clock ≢ clock_end) }
    ensures { (c : Call) → Shows result (timer (read t) c).state }
{
    let mut u = t;
    u.clock += 1;
    if u.clock % u.directory.every == 0 {
        return wake::wake_time(u);
    }
    u
}
