// Blocks: task and request blocks in queues, taken and freed. A block joins a queue and leaves it, a free block is taken, a used one is freed; and whether a
// task has requests queued or on the channel.
//
// It answers for "A freed block is used again: always the lowest-numbered free one" of document 01, and for what each later part asks of a queue. It knows
// the tables, and nothing of what a task waits for.
//
// Each function takes the tables and gives them back changed, or answers what it is asked of them. It asks for no more than makes it safe, and ensures that the
// tables then show the meaning of what it does.
#![tactic(auto)]

pub mod free;
pub mod pending;

ghost use Rattle.std.specs.Prelude.{◌≡◌, ◌<◌};
ghost use Rattle.threads.specs.Threads.{hd, Outside, Member, Sound};
ghost use Rattle.tables.specs.Blocks.{moving};
ghost use Rattle.tables.specs.State.{read, queue, task_at, entry_for, with_task, joining, leaving};
ghost use Rattle.tables.specs.Held.{Shows};

use image::Entry;
use tables::{Tables, Task, places};

// A task block that is put into a place when the clock shows `clock`; the place gives what is waited for no meaning.
pub fn moving(clock: u32, task: Task, place: u8) -> Task
    ensures { result ≡ moving clock task place }
{
    Task {
        place: place,
        since: places::since(clock, place),
        count: 0,
        events: 0,
        time: 0,
        request: 0,
        ..task
    }
}

// The entry of the task k's module: its level and its core units.
pub fn entry_of(t: Tables, k: u8) -> Entry
    requires { (k < 25) × ((task_at (read t) k).program < 32) }
    ensures { result ≡ entry_for (read t) k }
{
    let x = t.tasks[k as usize];
    let d = t.directory;
    d.entries[x.program as usize]
}

// The first of a queue, or 0, which is how the tables and `hd` of specs/ say none.
pub fn first_of(t: Tables, q: u8) -> u8
    requires { Sound t.threads × (q < 9) }
    ensures { result ≡ hd (queue (read t) q) }
{
    let h = t.threads;
    h.first[q as usize]
}

// The task k, of no queue, at the end of the queue q, with `task` for its block.
pub fn join(t: Tables, q: u8, k: u8, task: Task) -> Tables
    requires { Outside t.threads q k × (k < 25) }
    ensures { Shows result (joining (with_task (read t) k task) q k) }
{
    let mut r = t;
    let h = threads::append(r.threads, q, k);
    r.tasks[k as usize] = task;
    r.threads = h;
    r
}

// The block k leaves the queue q.
pub fn leave(t: Tables, q: u8, k: u8) -> Tables
    requires { Member t.threads q k }
    ensures { Shows result (leaving (read t) q k) }
{
    let mut r = t;
    let h = threads::remove(r.threads, q, k);
    r.threads = h;
    r
}
