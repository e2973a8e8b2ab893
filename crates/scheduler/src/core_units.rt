// Core: whether a task still needs units, where it would get them at once, and granting them.
ghost use Rattle.std.specs.Prelude.{◌≡◌, ◌≤◌, ◌&&◌, ◌==◌, nat_lt};
ghost use Rattle.threads.specs.Threads.{Sound};
ghost use Rattle.tables.specs.Blocks.{NotGranted};
ghost use Rattle.tables.specs.State.{read};
ghost use Rattle.tables.specs.Held.{Shows};
ghost use Rattle.meaning.specs.Ready.{given_run};
ghost use Rattle.scheduler.specs.Core.{seat_of, Granting};

use tables::names::{HOLDS_RUN, LEVELS, NOT_GRANTED};
use tables::{Tables, Task};

// A task of a module of n units still needs core.
pub fn needs(task: Task, n: u8) -> bool
    ensures { result ≡ (nat_lt 0 n && task.core == NotGranted) }
{
    (0 < n) & (task.core == NOT_GRANTED)
}

// The start at which a newcomer gets n units of the level: nowhere behind others that wait.
pub fn seat(t: Tables, level: u8, n: u8) -> Option<u8>
    requires { Sound t.threads × (level ≤ 3) }
    ensures { result ≡ seat_of (read t) level n }
{
    if blocks::first_of(t, level + LEVELS) != 0 {
        return None;
    }
    pools::find(t.holes, t.pools[level as usize], n)
}

// The task k is granted its n units of core, from a on.
pub fn grant(t: Tables, k: u8, level: u8, n: u8, a: u8) -> Tables
    requires { Granting (read t) k level n a × Sound t.threads }
    ensures { Shows result (given_run (read t) k) }
{
    let mut r = t;
    r.pools[level as usize] = pools::grant(r.pools[level as usize], a, n);
    r.tasks[k as usize] = Task {
        core: HOLDS_RUN,
        start: a,
        ..r.tasks[k as usize]
    };
    r
}
