// CHECK.
ghost use Rattle.std.specs.Prelude.{◌≡◌, ◌≤◌};
ghost use Rattle.threads.specs.Threads.{Sound};
ghost use Rattle.tables.specs.Blocks.{awaiting_request};
ghost use Rattle.tables.specs.State.{read};
ghost use Rattle.tables.specs.Held.{Shows};
ghost use Rattle.meaning.specs.Services.{awaits_request, check};

use blocks::free;
use calls::Call;
use tables::names::{DONE, IN_CHECK};
use tables::{Tables, Task};

// A task block in CHECK, which waits for the request r.
fn awaiting(clock: u32, task: Task, r: u8) -> Task
    ensures { result ≡ awaiting_request clock task r }
{
    let mut x = blocks::moving(clock, task, IN_CHECK);
    x.request = r;
    x
}

// The caller stops running and waits for the request r.
fn wait_for(t: Tables, r: u8) -> Tables
    requires { Sound t.threads × (t.running ≤ 24) }
    ensures { Shows result (awaits_request (read t) r) }
{
    let mut u = t;
    let k = u.running;
    let x = awaiting(u.clock, u.tasks[k as usize], r);
    u.tasks[k as usize] = x;
    u.running = 0;
    u
}

// A done request's block is freed and the caller goes on; for a pending one the caller waits.
pub fn check(t: Tables, c: Call) -> Tables
    requires { Sound t.threads × (t.running ≤ 24) × (c.number ≤ 16) }
    ensures { Shows result (check (read t) c).state }
{
    let r = c.number;
    let q = t.requests[r as usize];
    if q.place == DONE {
        return free::free_request(t, r);
    }
    wait_for(t, r)
}
