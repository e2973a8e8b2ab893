// Waiting for a condition: in the event queue by arrival, in the time queue by time and then arrival.
ghost use Rattle.std.specs.Prelude.{◌≡◌, ◌≢◌, ◌^◌, ◌<◌};
ghost use Rattle.threads.specs.Threads.{Outside};
ghost use Rattle.tables.specs.Blocks.{awaiting_events, awaiting_time};
ghost use Rattle.tables.specs.State.{read, event_queue, time_queue};
ghost use Rattle.tables.specs.Held.{Held, Loose, Shows};
ghost use Rattle.meaning.specs.Conditions.{due_of, awaits_events, in_time, awaits_time, waiting};

use crate::conditions;
use calls::Call;
use tables::names::{EVENT_QUEUE, IN_EVENT, IN_TIME, TIME_QUEUE};
use tables::{Tables, Task};

// A task block in the event queue.
fn awaiting_events(clock: u32, task: Task, count: u8, events: u64) -> Task
    ensures { result ≡ awaiting_events clock task count events }
{
    let mut x = blocks::moving(clock, task, IN_EVENT);
    x.count = count as u16;
    x.events = events;
    x
}

// A task block in the time queue.
fn awaiting_time(clock: u32, task: Task, time: u32) -> Task
    ensures { result ≡ awaiting_time clock task time }
{
    let mut x = blocks::moving(clock, task, IN_TIME);
    x.time = time;
    x
}

// The task k, of no queue, waits for the events of a call.
pub fn wait_for_events(t: Tables, k: u8, c: Call) -> Tables
    requires { Outside t.threads event_queue k × (k < 25) }
    ensures { Shows result (awaits_events (read t) k c) }
{
    let x = awaiting_events(t.clock, t.tasks[k as usize], c.value, c.events);
    blocks::join(t, EVENT_QUEUE, k, x)
}

// The task k, of no queue, enters the time queue by the time of its block.
fn enter_time(t: Tables, k: u8) -> Tables
    requires { Held t × Outside t.threads time_queue k × (k < 25) }
    ensures { Shows result (in_time (read t) k) }
{
    let mut r = t;
    r.threads = threads::enter(t.threads, TIME_QUEUE, k, |y| t.tasks[y as usize].time);
    r
}

// The task k, of no queue, waits for the time of a call.
pub fn wait_for_time(t: Tables, k: u8, c: Call) -> Tables
    requires { Held t × Outside t.threads time_queue k × (k < 25) × (due_of (read t) c < 2 ^ 32) }
    ensures { Shows result (awaits_time (read t) k c) }
{
    let mut r = t;
    let due = conditions::due(t, c);
    let x = awaiting_time(r.clock, r.tasks[k as usize], due as u32);
    r.tasks[k as usize] = x;
    enter_time(r, k)
}

// The task k, of no queue, waits for the condition of a call, whose time, if it asks for one, the clock can reach.
pub fn wait_for(t: Tables, k: u8, c: Call) -> Tables
    requires { Loose t k × (c.kind ≢ 1 → due_of (read t) c < 2 ^ 32) }
    ensures { Shows result (waiting (read t) k c) }
{
    if c.kind == 1 {
        return wait_for_events(t, k, c);
    }
    wait_for_time(t, k, c)
}
