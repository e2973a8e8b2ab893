// The abort: child first, then its parent, and so on upward.
ghost use Rattle.std.specs.Prelude.{ℕ, ◌<◌};
ghost use Rattle.threads.specs.Threads.{Sound};
ghost use Rattle.tables.specs.State.{read};
ghost use Rattle.tables.specs.Held.{Shows};
ghost use Rattle.meaning.specs.Finish.{ended, unlinked, aborted};
ghost use Rattle.lawful.specs.Resting.{Aborting};

use crate::finish;
use tables::Tables;

// The task k loses its link.
pub fn unlink(t: Tables, k: u8) -> Tables
    requires { Sound t.threads × (k < 25) }
    ensures { Shows result (unlinked (read t) k) }
{
    let mut u = t;
    u.tasks[k as usize].parent = 0;
    u
}

// One step of the abort: the task k loses its link and finishes, or waits as ending.
fn one(t: Tables, k: u8) -> Tables
    requires { Sound t.threads × ((n : ℕ) × Aborting n k (read t)) }
    ensures { Shows result (ended (unlinked (read t) k) k) }
{
    let alone = unlink(t, k);
    finish::end(alone, k)
}

// "The abort calls itself on the parent block, with the remaining chain length as falling number". The tables are lent to it, and the call is the last thing
// that it does: passed by value, 24 times, they would fill the stack (`docs/SPEED.md`).
fn upward(t: &mut Tables, k: u8, left: u8)
    requires { Sound t.old.threads × Aborting left k (read t.old) }
    ensures { Shows t.new (aborted left k (read t.old)) }
{
    let parent = t.tasks[k as usize].parent;
    *t = one(*t, k);
    if parent == 0 {
        return;
    }
    upward(t, parent, left - 1)
}

// The task k, and then its parent and so on upward, `left` at most in all: each loses its link and finishes, or waits as ending. The 24 is given where the
// abort begins, in `tasking::stopping::program_check`; here any number will do that the chain of parents does not outlast.
pub fn abort(t: Tables, k: u8, left: u8) -> Tables
    requires { Sound t.threads × Aborting left k (read t) }
    ensures { Shows result (aborted left k (read t)) }
{
    let mut u = t;
    upward(&mut u, k, left);
    u
}
