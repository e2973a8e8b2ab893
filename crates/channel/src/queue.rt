// The channel and its queue.
ghost use Rattle.std.specs.Prelude.{◌≡◌, ◌<◌, ◌≤◌};
ghost use Rattle.threads.specs.Threads.{BLOCKS};
ghost use Rattle.tables.specs.State.{read};
ghost use Rattle.tables.specs.Held.{Held, Shows};
ghost use Rattle.meaning.specs.Channel.{channel_level, queued, channel_filled};
ghost use Rattle.channel.specs.Queue.{Owned, Entering};

use tables::Tables;
use tables::names::{CHANNEL_QUEUE, ON_CHANNEL, TASK_BLOCKS};

// The level of the owner of the request block whose number in a queue is `n`.
fn level(t: &Tables, n: u8) -> u32
    requires { Owned (read t.now) × (24 < n) × (n ≤ BLOCKS) }
    ensures { result ≡ channel_level (read t.now) n }
{
    let request = t.requests[(n - TASK_BLOCKS) as usize];
    let task = t.tasks[request.owner as usize];
    t.directory.entries[task.program as usize].level as u32
}

// The request block r, of no queue, in the channel queue by its owner's level, then arrival.
pub fn enter(t: Tables, r: u8) -> Tables
    requires { Entering t r }
    ensures { Shows result (queued (read t) r) }
{
    let mut u = t;
    u.threads = threads::enter(t.threads, CHANNEL_QUEUE, r + TASK_BLOCKS, |n| level(&t, n));
    u
}

// An empty channel takes the first of its queue at once; one on the channel is not displaced.
pub fn next(t: Tables) -> Tables
    requires { Held t }
    ensures { Shows result (channel_filled (read t)) }
{
    if t.channel != 0 {
        return t;
    }
    let n = blocks::first_of(t, CHANNEL_QUEUE);
    if n == 0 {
        return t;
    }
    let r = n - TASK_BLOCKS;
    let mut u = blocks::leave(t, CHANNEL_QUEUE, n);
    u.requests[r as usize].place = ON_CHANNEL;
    u.channel = r;
    u
}
