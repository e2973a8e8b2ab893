// Those who begin to wait: the tasks that wait after a call, in another place or since another reading than before it.
ghost use Rattle.std.specs.Prelude.{◌≡◌, ◌+◌, ◌≤◌, length, slice_get};
ghost use Rattle.lines.specs.Lines.{room, Fits};
ghost use Rattle.tables.specs.Blocks.{task_blocks};
ghost use Rattle.readings.specs.Readings.{begins, alone, beginners, names_of};

use lines::Line;
use tables::names::TASK_COUNT;
use tables::places::waits;
use tables::{Tables, Task};

// The lowest of them.
pub fn first(before: Tables, after: Tables) -> Option<usize>
    ensures { result ≡ slice_get (beginners before after task_blocks) 0 }
{
    for k in 1..=TASK_COUNT {
        if begins(before.tasks[k], after.tasks[k]) {
            return Some(k);
        }
    }
    None
}

// The line with all of them behind it, by number, each behind a space.
pub fn named(l: Line, before: Tables, after: Tables) -> Line
    requires { length l + 90 ≤ room }
    ensures { Fits l (names_of (beginners before after task_blocks)) 72 result }
{
    let mut line = l;
    for k in 1..=TASK_COUNT {
        line = name(line, k as u64, begins(before.tasks[k], after.tasks[k]));
    }
    line
}

// The line with one of them, where it is one.
fn name(l: Line, k: u64, begins: bool) -> Line
    requires { (length l + 21 ≤ room) × (k ≤ task_blocks) }
    ensures { Fits l (names_of (alone begins k)) 3 result }
{
    if begins { l.field(b" ", k) } else { l }
}

// Whether a task begins to wait, by its block before the call and after it.
fn begins(was: Task, is: Task) -> bool
    ensures { result ≡ begins was is }
{
    waits(is.place) && (was.place != is.place || was.since != is.since)
}
