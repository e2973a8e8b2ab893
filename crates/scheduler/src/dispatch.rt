// The dispatcher.
ghost use Rattle.std.specs.Prelude.{◌≡◌, ◌≤◌, ◌≢◌};
ghost use Rattle.threads.specs.Threads.{hd};
ghost use Rattle.tables.specs.State.{read, queue};
ghost use Rattle.tables.specs.Held.{Held, Shows};
ghost use Rattle.meaning.specs.Ready.{best_ready, runs_first, dispatched};

use tables::Tables;
use tables::names::{LEVELS, RUNNING};

// The best level that has a ready task, or 0: level 0 is no level, as in the tables.
pub fn best_ready(t: Tables) -> u8
    requires { Held t }
    ensures { result ≡ best_ready (read t) }
{
    for level in 1..=LEVELS {
        if blocks::first_of(t, level) != 0 {
            return level;
        }
    }
    0
}

// The first of the ready queue of `level` runs.
pub fn run_first(t: Tables, level: u8) -> Tables
    requires { Held t × (1 ≤ level) × (level ≤ 3) × (hd (queue (read t) level) ≢ 0) }
    ensures { Shows result (runs_first (read t) level) }
{
    let k = blocks::first_of(t, level);
    let mut r = blocks::leave(t, level, k);
    r.tasks[k as usize] = blocks::moving(r.clock, r.tasks[k as usize], RUNNING);
    r.running = k;
    r
}

// If no task runs, the first of the best non-empty level is dispatched.
pub fn dispatch(t: Tables) -> Tables
    requires { Held t }
    ensures { Shows result (dispatched (read t)) }
{
    if t.running != 0 {
        return t;
    }
    let level = best_ready(t);
    if level == 0 {
        return t;
    }
    run_first(t, level)
}
