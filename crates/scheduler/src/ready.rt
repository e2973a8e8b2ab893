// Making a task ready.
ghost use Rattle.std.specs.Prelude.{◌<◌};
ghost use Rattle.threads.specs.Threads.{Outside};
ghost use Rattle.tables.specs.State.{read, joining};
ghost use Rattle.tables.specs.Held.{Loose, Shows};
ghost use Rattle.meaning.specs.Ready.{placed, made_ready};

use crate::core_units;
use tables::Tables;
use tables::names::{IN_CORE, LEVELS, READY};

// The task k, of no queue, in the place p and at the end of the queue q.
pub fn put_in(t: Tables, q: u8, p: u8, k: u8) -> Tables
    requires { Outside t.threads q k × (k < 25) }
    ensures { Shows result (joining (placed (read t) k p) q k) }
{
    let x = blocks::moving(t.clock, t.tasks[k as usize], p);
    blocks::join(t, q, k, x)
}

// The task k, of no queue, is made ready.
pub fn make_ready(t: Tables, k: u8) -> Tables
    requires { Loose t k }
    ensures { Shows result (made_ready (read t) k) }
{
    let e = blocks::entry_of(t, k);
    let level = e.level;
    let n = e.units;
    if !core_units::needs(t.tasks[k as usize], n) {
        return put_in(t, level, READY, k);
    }
    let Some(a) = core_units::seat(t, level, n) else {
        return put_in(t, level + LEVELS, IN_CORE, k);
    };
    let u = core_units::grant(t, k, level, n, a);
    put_in(u, level, READY, k)
}
