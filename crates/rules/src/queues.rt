// The rules over queues, of tables whose pointers, fields and places are right.
ghost use Rattle.std.specs.Prelude.{not, ◌&&◌, ◌||◌, ◌≡◌, ℕ, ◌<◌, ◌≤◌, eqb};
ghost use Rattle.words.specs.Words.{up_by};
ghost use Rattle.pools.specs.Pools.{long_enough};
ghost use Rattle.threads.specs.Threads.{count, queue_in, queues_of, Sound, QUEUES, BLOCKS};
ghost use Rattle.tables.specs.State.{read, task_at, queue, time_queue, channel_queue};
ghost use Rattle.meaning.specs.Channel.{channel_level};
ghost use Rattle.meaning.specs.Rules.{idle_only_if_none_ready, channel_busy, core_waits, queues_in_order};
ghost use Rattle.rules.specs.Orderly.{Orderly};

use tables::Tables;
use tables::names::{CHANNEL_QUEUE, LEVELS, TASK_BLOCKS, TIME_QUEUE};
use threads::Threads;

// "The processor is idle only if nothing is ready", of who runs and the first ready of each level.
fn busy(running: u8, first: u8, second: u8, third: u8) -> bool
    ensures { result ≡ (not (eqb running 0) || (eqb first 0 && eqb second 0 && eqb third 0)) }
{
    !(running == 0) | ((first == 0) & (second == 0) & (third == 0))
}

// "no queue behind an empty channel", of the request on the channel and the first that waits for it.
fn channel_busy(channel: u8, first: u8) -> bool
    ensures { result ≡ (not (eqb channel 0) || eqb first 0) }
{
    !(channel == 0) | (first == 0)
}

// "no first waiter for core would fit", of the first waiter of a level, its pool and the units that the waiter needs.
fn core_waits(k: u8, granted: u64, units: u8) -> bool
    ensures { result ≡ (eqb k 0 || not (long_enough granted units)) }
{
    if k == 0 {
        return true;
    }
    !pools::long_enough(granted, units)
}

// "no first waiter for core would fit", level by level.
fn core_short(t: &Tables) -> bool
    requires { Orderly t.now }
    ensures { result ≡ core_waits (read t.now) }
{
    let mut waiting = true;
    for level in 1..=LEVELS {
        let k = t.threads.first[usize::from(level + LEVELS)];
        let x = t.tasks[usize::from(k)];
        let e = t.directory.entries[usize::from(x.program)];
        waiting = waiting & core_waits(k, t.pools[usize::from(level)], e.units);
    }
    waiting
}

// The queue goes up by a key of its blocks, or stays. The loop follows the pointers and counts nothing.
fn in_order<F: Fn(u8) -> u32>(h: &Threads, q: u8, key: F) -> bool
    requires sound { Sound h.now }
    requires low { q < QUEUES }
    requires asked { (y : ℕ) → 1 ≤ count y (queue_in (queues_of h.now) q) → F.pre key y }
    ensures { (order : ℕ → ℕ)
        → ((y r : ℕ) → 1 ≤ count y (queue_in (queues_of h.now) q) → F.post key y r → r ≡ order y)
        → result ≡ up_by order (queue_in (queues_of h.now) q) }
{
    let mut right = true;
    let mut least: u32 = 0;
    let mut y = h.first[usize::from(q)];
    while y != 0 {
        let own = key(y);
        right = right & (least <= own);
        least = own;
        y = h.fwd[usize::from(y)];
    }
    right
}

// "the time queue by time"
fn timely(t: &Tables) -> bool
    requires { Orderly t.now }
    ensures { result ≡ up_by (λ k. (task_at (read t.now) k).time) (queue (read t.now) time_queue) }
{
    in_order(&t.threads, TIME_QUEUE, |y| t.tasks[usize::from(y)].time)
}

// The level of who asked for the request of this number in a queue.
fn asker_level(t: &Tables, z: u8) -> u32
    requires orderly { Orderly t.now }
    requires request { TASK_BLOCKS < z }
    requires block { z ≤ BLOCKS }
    ensures { result ≡ channel_level (read t.now) z }
{
    let q = t.requests[usize::from(z - TASK_BLOCKS)];
    let x = t.tasks[usize::from(q.owner)];
    u32::from(t.directory.entries[usize::from(x.program)].level)
}

// "the channel queue by level"
fn ranked(t: &Tables) -> bool
    requires { Orderly t.now }
    ensures { result ≡ up_by (channel_level (read t.now)) (queue (read t.now) channel_queue) }
{
    in_order(&t.threads, CHANNEL_QUEUE, |z| asker_level(t, z))
}

// The three rules above, and the orders of the two queues.
pub fn queues_right(t: &Tables) -> bool
    requires { Orderly t.now }
    ensures { result ≡ (idle_only_if_none_ready (read t.now) && core_waits (read t.now) && queues_in_order (read t.now) && channel_busy (read t.now)) }
{
    let first = t.threads.first;
    busy(t.running, first[1], first[2], first[3])
        & core_short(t)
        & (timely(t) & ranked(t))
        & channel_busy(t.channel, first[8])
}
