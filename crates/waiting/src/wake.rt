// Waking: each event waiter whose condition holds, each time waiter whose time has come.
ghost use Rattle.std.specs.Prelude.{[]};
ghost use Rattle.threads.specs.Threads.{Sound};
ghost use Rattle.words.specs.Words.{each};
ghost use Rattle.tables.specs.State.{event_queue, time_queue, read, queue, leaving};
ghost use Rattle.tables.specs.Held.{Shows};
ghost use Rattle.meaning.specs.Ready.{made_ready};
ghost use Rattle.meaning.specs.Services.{woken, timely};
ghost use Rattle.lawful.specs.Shape.{Shape};
ghost use Rattle.waiting.specs.Wake.{Waiting, Watched, woken_in};

use crate::conditions;
use scheduler::ready;
use tables::Tables;
use tables::names::{EVENT_QUEUE, TIME_QUEUE};

// The task k leaves the queue q, in which it waits, and is made ready.
pub fn wake(t: Tables, q: u8, k: u8) -> Tables
    requires { Waiting t q k }
    ensures { Shows result (made_ready (leaving (read t) q k) k) }
{
    let u = blocks::leave(t, q, k);
    ready::make_ready(u, k)
}

// The task k, which waits in the queue q, is made ready if what it waits for has come: in the event queue its condition, in the time queue its time. Which of
// the two is asked by the queue's number, as `woken_in` of specs/ has it; a closure for each would have that promise written twice, and be no plainer.
fn wake_if_due(t: Tables, q: u8, k: u8) -> Tables
    requires { Waiting t q k × Watched q }
    ensures { Shows result (woken_in q k (read t)) }
{
    let x = t.tasks[k as usize];
    if q == EVENT_QUEUE {
        if conditions::enough_on(t.on, x.count as u32, x.events) {
            return wake(t, q, k);
        }
        return t;
    }
    if x.time <= t.clock {
        return wake(t, q, k);
    }
    t
}

// The event queue or the time queue is walked front to back, and each task that is due is made ready.
fn wake_all(t: Tables, q: u8) -> Tables
    requires { Sound t.threads × Shape (read t) [] 0 × Watched q }
    ensures { Shows result (each (woken_in q) (queue (read t) q) (read t)) }
{
    let mut u = t;
    let mut k = blocks::first_of(u, q);
    while k != 0 {
        let h = u.threads;
        let next = h.fwd[k as usize];
        u = wake_if_due(u, q, k);
        k = next;
    }
    u
}

// `wake_all` is the one walk of both queues. The next two are kept for what they promise, each in the words that the meaning has for its own queue.

// Each task of the event queue whose condition holds is made ready, front to back.
pub fn wake_events(t: Tables) -> Tables
    requires { Sound t.threads × Shape (read t) [] 0 }
    ensures { Shows result (each woken (queue (read t) event_queue) (read t)) }
{
    wake_all(t, EVENT_QUEUE)
}

// Every task on the time queue whose time is at most the clock is made ready, in queue order.
pub fn wake_time(t: Tables) -> Tables
    requires { Sound t.threads × Shape (read t) [] 0 }
    ensures { Shows result (each timely (queue (read t) time_queue) (read t)) }
{
    wake_all(t, TIME_QUEUE)
}
