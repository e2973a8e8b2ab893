// Readings: since when tasks wait, as words of a line.
//
// It answers for the question of document 02's E6, "how long a task has been stuck". It knows the tables before a call and after it, and nothing of what the
// call was. A task's reading is the clock reading at which it entered the place in which it waits; 0 where it does not wait.
#![tactic(auto)]

mod beginners;

ghost use Rattle.std.specs.Prelude.{◌+◌, ◌≤◌, length};
ghost use Rattle.lines.specs.Lines.{room, Fits};
ghost use Rattle.tables.specs.Blocks.{task_blocks};
ghost use Rattle.readings.specs.Readings.{new_reading, changed_of, since_of, begun_of};

use lines::Line;
use tables::Tables;
use tables::names::TASK_COUNT;

// The line with each task block behind it that has another reading than before, and its reading: " 4@17 6@0". This loop and those of `Line::members` and of
// `beginners::named` stay three: what a function over all of them would say of its closure is longer than they are.
pub fn changed(l: Line, before: Tables, after: Tables) -> Line
    requires { length l + 346 ≤ room }
    ensures { Fits l (changed_of before after task_blocks) 336 result }
{
    let mut line = l;
    for k in 1..=TASK_COUNT {
        let is = after.tasks[k].since;
        if before.tasks[k].since != is {
            line = change(line, k as u64, is);
        }
    }
    line
}

// The line with one of them: its block and its reading.
fn change(l: Line, k: u64, reading: u32) -> Line
    requires { (length l + 24 ≤ room) × (k ≤ task_blocks) }
    ensures { Fits l (new_reading k reading) 14 result }
{
    l.field(b" ", k).field(b"@", u64::from(reading))
}

// The line with the task blocks behind it that begin to wait, and their reading: "; waiting since 17: 4 7". Nothing where there is none.
pub fn begun(l: Line, before: Tables, after: Tables) -> Line
    requires { length l + 117 ≤ room }
    ensures { Fits l (begun_of before after) 99 result }
{
    match beginners::first(before, after) {
        Some(k) => beginners::named(since(l, after.tasks[k].since), before, after),
        None => l,
    }
}

// The line with the words behind it that stand before the blocks: "; waiting since 17:".
fn since(l: Line, reading: u32) -> Line
    requires { length l + 36 ≤ room }
    ensures { Fits l (since_of reading) 27 result }
{
    l.field(b"; waiting since ", u64::from(reading)).text(b":")
}
