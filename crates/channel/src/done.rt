// I/O done.
ghost use Rattle.std.specs.Prelude.{◌≢◌, ◌≤◌};
ghost use Rattle.calls.specs.declared.Call.{Call};
ghost use Rattle.threads.specs.Threads.{Sound};
ghost use Rattle.tables.specs.Blocks.{Done};
ghost use Rattle.tables.specs.State.{read, with_channel};
ghost use Rattle.tables.specs.Held.{Shows};
ghost use Rattle.meaning.specs.Channel.{request_placed};
ghost use Rattle.meaning.specs.Services.{io_done};
ghost use Rattle.lawful.specs.Resting.{Lawful};

use crate::queue;
use blocks::{free, pending};
use ending::finish;
use scheduler::ready;
use tables::Tables;
use tables::names::{DONE, ENDING, IN_CHECK};

// The request leaves the channel, and is marked done.
fn leave_channel(t: Tables) -> Tables
    requires { Sound t.threads × (t.channel ≤ 16) }
    ensures { Shows result (request_placed (with_channel (read t) 0) t.channel Done) }
{
    let mut u = t;
    let r = u.channel;
    u.requests[r as usize].place = DONE;
    u.channel = 0;
    u
}

// The request leaves the channel. Its owner, in CHECK on it, is made ready; its owner, ending with no other pending, finishes; either frees the block.
// Then the next request goes on the channel.
pub fn io_done(t: Tables) -> Tables
    requires { Sound t.threads × Lawful (read t) × (t.channel ≢ 0) }
    ensures { (c : Call) → Shows result (io_done (read t) c).state }
{
    let r = t.channel;
    let q = t.requests[r as usize];
    let k = q.owner;
    let x = t.tasks[k as usize];
    let left = leave_channel(t);
    if (x.place == IN_CHECK) & (x.request == r) {
        let freed = free::free_request(left, r);
        let ready = ready::make_ready(freed, k);
        return queue::next(ready);
    }
    if (x.place == ENDING) & !pending::pending(left, k) {
        let freed = free::free_request(left, r);
        let over = finish::finish(freed, k);
        return queue::next(over);
    }
    queue::next(left)
}
