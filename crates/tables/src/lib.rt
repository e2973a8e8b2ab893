// The tables of the executive: the directory, the clock, the events, and the task, request and core blocks, in fixed arrays.
//
// It answers for 'Sizes' of document 01 and for its words on places, pointers and free blocks. It knows what the tables are, and nothing of what a
// call does to them.
//
// Block 0 names no block, and level 0 no level: slot 0 of `tasks`, `requests` and `pools` is always zero.
//
// No byte lies between two fields or behind the last: the order and the widths of the fields see to it, so that equal tables are equal bytes.
#![tactic(auto)]

ghost use Rattle.std.specs.Prelude.{◌≡◌};
ghost use Rattle.tables.specs.State.{unused, tabled, loaded, all_zero};

pub mod names;
pub mod places;

use image::Directory;
use names::{REQUEST_BLOCKS, REQUEST_SLOTS, TASK_BLOCKS, TASK_SLOTS};
use threads::Threads;

// place, core: numbers of names.rt. program: the number of its module. start: where the run begins that it holds.
// count and events are the condition of an event waiter, time that of a time waiter, request what a task in CHECK waits for.
// since: the clock reading at which it entered the place in which it waits; 0 where it does not wait.
#[repr(C)]
#[derive(Clone, Copy, Debug, PartialEq, Eq, Default)]
pub struct Task {
    pub events: u64,
    pub time: u32,
    pub since: u32,
    pub count: u16,
    pub program: u8,
    pub request: u8,
    pub place: u8,
    pub parent: u8,
    pub core: u8,
    pub start: u8,
}

// place: a number of names.rt. command: the call's code, 13 or 14.
#[repr(C)]
#[derive(Clone, Copy, Debug, PartialEq, Eq, Default)]
pub struct Request {
    pub place: u8,
    pub owner: u8,
    pub device: u8,
    pub command: u8,
    pub bytes: u16,
}

// on: the events that are on. signalled: those of which a SIGNAL, on or off, has been accepted since the load.
// pools: the granted units of each level, one bit each. free_tasks, free_requests: the free blocks, bit k for block k.
// running, channel: the block that runs, and the one on the channel; 0 for none.
// holes: the rule by which core is granted, a number of `pools`. It is as wide as leaves no byte behind it.
#[repr(C)]
#[derive(Clone, Copy, Debug, PartialEq, Eq)]
pub struct Tables {
    pub directory: Directory,
    pub on: u64,
    pub signalled: u64,
    pub pools: [u64; 4],
    pub tasks: [Task; TASK_SLOTS],
    pub clock: u32,
    pub free_tasks: u32,
    pub free_requests: u32,
    pub requests: [Request; REQUEST_SLOTS],
    pub running: u8,
    pub channel: u8,
    pub threads: Threads,
    pub holes: u64,
}

// All task blocks and all request blocks, as sets: bits 1 to 24, and bits 1 to 16.
const ALL_TASKS: u32 = (2 << TASK_BLOCKS) - 2;

const ALL_REQUESTS: u32 = (2 << REQUEST_BLOCKS) - 2;

// The tables of a directory, just loaded: no tasks, no event on and none signalled, clock 0. Grants follow the rule that is given.
pub fn loaded(holes: u64, directory: Directory) -> Tables
    ensures { result ≡ tabled (loaded holes directory) }
{
    unused(directory, holes, ALL_TASKS, ALL_REQUESTS)
}

// The tables that a refused load gives.
pub fn all_zero() -> Tables
    ensures { result ≡ tabled all_zero }
{
    unused(Directory::default(), 0, 0, 0)
}

// The tables of a directory in which nothing is used, with the blocks of two sets free, in which grants follow a rule.
fn unused(directory: Directory, holes: u64, free_tasks: u32, free_requests: u32) -> Tables
    ensures { result ≡ tabled (unused directory holes free_tasks free_requests) }
{
    Tables {
        directory: directory,
        on: 0,
        signalled: 0,
        pools: [0; 4],
        tasks: [Task::default(); TASK_SLOTS],
        clock: 0,
        free_tasks: free_tasks,
        free_requests: free_requests,
        requests: [Request::default(); REQUEST_SLOTS],
        running: 0,
        channel: 0,
        threads: threads::empty(),
        holes: holes,
    }
}
