// Serving a core queue, and giving core back, after which it is served.
ghost use Rattle.std.specs.Prelude.{◌≡◌};
ghost use Rattle.threads.specs.Threads.{Sound};
ghost use Rattle.tables.specs.State.{read, core_queue, task_at};
ghost use Rattle.tables.specs.Blocks.{HoldsRun};
ghost use Rattle.tables.specs.Held.{Shows};
ghost use Rattle.meaning.specs.Ready.{seated, served};
ghost use Rattle.meaning.specs.Finish.{unseated, given_back};
ghost use Rattle.scheduler.specs.Core.{Waiters, Seating, Holder};

use crate::{core_units, ready};
use tables::names::{GAVE_BACK, HOLDS_RUN, LEVELS, READY};
use tables::{Tables, Task};

// The first of the level's core queue is granted its units and is ready.
pub fn serve_one(t: Tables, level: u8, k: u8, n: u8, a: u8) -> Tables
    requires { Seating t level k n a }
    ensures { Shows result (seated (read t) (core_queue level) k) }
{
    let v = blocks::leave(t, level + LEVELS, k);
    let u = core_units::grant(v, k, level, n, a);
    ready::put_in(u, level, READY, k)
}

// The level's core queue is served from the front, up to the first that does not fit. A `while`: each turn asks for the first again, since serving changes
// the queue.
pub fn serve(t: Tables, level: u8) -> Tables
    requires { Sound t.threads × Waiters (read t) level }
    ensures { Shows result (served (read t) level) }
{
    let q = level + LEVELS;
    let mut u = t;
    let mut k = blocks::first_of(u, q);
    while k != 0 {
        let e = blocks::entry_of(u, k);
        let n = e.units;
        let Some(a) = pools::find(u.holes, u.pools[level as usize], n) else {
            return u;
        };
        u = serve_one(u, level, k, n, a);
        k = blocks::first_of(u, q);
    }
    u
}

// The run of the task k is free, and it gave it back.
fn unseat(t: Tables, k: u8) -> Tables
    requires { Sound t.threads × Holder (read t) k × ((task_at (read t) k).core ≡ HoldsRun) }
    ensures { Shows result (unseated (read t) k) }
{
    let mut r = t;
    let e = blocks::entry_of(t, k);
    let x = r.tasks[k as usize];
    r.pools[e.level as usize] = pools::give_back(r.pools[e.level as usize], x.start, e.units);
    r.tasks[k as usize] = Task {
        core: GAVE_BACK,
        start: 0,
        ..x
    };
    r
}

// The task k gives its run back, if it holds one, and its level's core queue is served.
pub fn give_back(t: Tables, k: u8) -> Tables
    requires { Sound t.threads × Holder (read t) k }
    ensures { Shows result (given_back (read t) k) }
{
    let x = t.tasks[k as usize];
    if x.core != HOLDS_RUN {
        return t;
    }
    let e = blocks::entry_of(t, k);
    let u = unseat(t, k);
    serve(u, e.level)
}
