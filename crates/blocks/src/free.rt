// Free blocks, which are sets: the lowest of them, a task created in one, blocks freed.
ghost use Rattle.std.specs.Prelude.{◌≡◌, ◌<◌};
ghost use Rattle.threads.specs.Threads.{Sound};
ghost use Rattle.words.specs.Words.{least};
ghost use Rattle.tables.specs.Blocks.{new_task};
ghost use Rattle.tables.specs.State.{read};
ghost use Rattle.tables.specs.Held.{Shows};
ghost use Rattle.meaning.specs.Finish.{freed_task, freed_request, freed_if_done, freed_done};
ghost use Rattle.meaning.specs.Services.{created};

use tables::names::{DONE, REQUEST_BLOCKS};
use tables::{Request, Tables, Task};

// The lowest-numbered block of a set; 32 where it is empty, as `least` of specs/ has it.
pub fn lowest(blocks: u32) -> u8
    ensures { result ≡ least blocks }
{
    words::sets::least(blocks) as u8
}

// A task of a module, child of `parent` or of none, in no place yet.
fn new_task(program: u8, parent: u8) -> Task
    ensures { result ≡ new_task program parent }
{
    Task {
        program: program,
        parent: parent,
        ..Task::default()
    }
}

// A task of a module, child of `parent` or of none, in the block k.
pub fn create(t: Tables, k: u8, program: u8, parent: u8) -> Tables
    requires { Sound t.threads × (k < 25) }
    ensures { Shows result (created (read t) k program parent) }
{
    let mut r = t;
    r.free_tasks = words::sets::dropping(r.free_tasks, k as u32);
    r.tasks[k as usize] = new_task(program, parent);
    r
}

// The task block k is free again.
pub fn free_task(t: Tables, k: u8) -> Tables
    requires { Sound t.threads × (k < 25) }
    ensures { Shows result (freed_task (read t) k) }
{
    let mut r = t;
    r.free_tasks = words::sets::adding(r.free_tasks, k as u32);
    r.tasks[k as usize] = new_task(0, 0);
    r
}

// The request block n is free again. As `free_task`, but for the arrays and the sets that it names: one form of both would take those four, and be no plainer.
pub fn free_request(t: Tables, n: u8) -> Tables
    requires { Sound t.threads × (n < 17) }
    ensures { Shows result (freed_request (read t) n) }
{
    let mut r = t;
    r.free_requests = words::sets::adding(r.free_requests, n as u32);
    r.requests[n as usize] = Request::default();
    r
}

// The request block n is free again, if it is a done one of the task k.
fn free_if_done(t: Tables, k: u8, n: u8) -> Tables
    requires { Sound t.threads × (n < 17) }
    ensures { Shows result (freed_if_done k n (read t)) }
{
    let q = t.requests[n as usize];
    if (q.owner == k) & (q.place == DONE) {
        return free_request(t, n);
    }
    t
}

// The done requests of the task k are free again.
pub fn free_done(t: Tables, k: u8) -> Tables
    requires { Sound t.threads }
    ensures { Shows result (freed_done (read t) k) }
{
    let mut u = t;
    for n in 1..=REQUEST_BLOCKS {
        u = free_if_done(u, k, n);
    }
    u
}
