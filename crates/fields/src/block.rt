// The rules over one block: each a function of the block and of numbers, and never of the tables.
ghost use Rattle.std.specs.Prelude.{◌≡◌, not, ◌&&◌, ◌||◌, ◌≢◌, ℕ, ◌≤◌, eqb, leb, if◌then◌else◌};
ghost use Rattle.words.specs.Words.{has};
ghost use Rattle.tables.specs.State.{channel_queue};
ghost use Rattle.tables.specs.Blocks.{task_blocks};
ghost use Rattle.threads.specs.Threads.{no_queue};
ghost use Rattle.meaning.specs.Rules.{request_in_range, queue_for, blank_task, blank_request};
ghost use Rattle.fields.specs.Blocks.{core_right, own_right, place_right, waiter_right, since_right, pends, pending_right, used_by, request_right};
ghost use Rattle.fields.specs.Told.{told_right};

use tables::names::{
    CHANNEL_QUEUE, DONE, ENDING, EVENT_QUEUE, FREE, GAVE_BACK, HOLDS_RUN, IN_CHECK, IN_CORE,
    IN_EVENT, IN_TIME, LEVELS, NOT_GRANTED, ON_CHANNEL, QUEUED, READY, REQUEST_BLOCKS, RUNNING,
    TASK_BLOCKS, TIME_QUEUE,
};
use tables::{Request, Task, places};
use threads::QUEUES;
use words::sets;

// The mark of a block that is in no queue.
const NO_QUEUE: u8 = QUEUES as u8;

// ---- Task blocks.

// Every field is zero.
pub fn blank_task(x: Task) -> bool
    ensures { result ≡ blank_task x }
{
    x == Task::default()
}

// The queue of a place, of a task of a level.
#[tactic(auto, unfolding(meaning::specs::Rules::queue_for))]
fn queue_for(place: u8, level: u8) -> u16
    ensures { result ≡ queue_for place level }
{
    match place {
        READY => u16::from(level),
        IN_CORE => u16::from(level) + u16::from(LEVELS),
        IN_EVENT => u16::from(EVENT_QUEUE),
        IN_TIME => u16::from(TIME_QUEUE),
        _ => u16::from(NO_QUEUE),
    }
}

// The task waits for no events, no time and no request.
fn no_condition(x: Task) -> bool
    ensures { result ≡ (eqb x.count 0 && eqb x.events 0 && eqb x.time 0 && eqb x.request 0) }
{
    (x.count == 0) & (x.events == 0) & (x.time == 0) & (x.request == 0)
}

// What the tables say of a task block besides its fields: how many modules there are, the events that are defined and those that are on, the clock; the
// level and the units of its module; the queue in which it stands; whether it runs; whether the free set has it; whether the request that it names is its own
// and pending; whether any such request is.
#[derive(Clone, Copy)]
pub struct Told {
    pub modules: u32,
    pub defined: u64,
    pub on: u64,
    pub clock: u32,
    pub level: u8,
    pub units: u8,
    pub stands: u8,
    pub runs: bool,
    pub free: bool,
    pub own: bool,
    pub pends: bool,
}

impl Told {
    // The task block keeps the rules over one block.
    pub fn right(self, x: Task) -> bool
        ensures { result ≡ told_right self x }
    {
        if x.place == FREE {
            self.free_right(x)
        } else {
            self.used_right(x)
        }
    }

    // A free block is zero, and stands nowhere.
    fn free_right(self, x: Task) -> bool
        ensures { result ≡ (eqb self.stands no_queue && not self.runs && self.free && blank_task x) }
    {
        (self.stands == NO_QUEUE) & !self.runs & self.free & blank_task(x)
    }

    // A used block keeps what is asked in every place, and what its own place asks.
    fn used_right(self, x: Task) -> bool
        requires { x.place ≢ 0 }
        ensures { result ≡ told_right self x }
    {
        (x.parent <= TASK_BLOCKS)
            & (x.core <= GAVE_BACK)
            & (u32::from(x.program) < self.modules)
            & self.core_right(x)
            & self.place_right(x)
            & self.own_right(x)
            & self.since_right(x)
    }

    // The core of a task of a module of so many units.
    fn core_right(self, x: Task) -> bool
        ensures { result ≡ core_right self.units x }
    {
        if x.core == HOLDS_RUN {
            (u16::from(x.start) + u16::from(self.units) <= 64) & (self.units != 0)
        } else {
            ((self.units != 0) | (x.core == NOT_GRANTED)) & (x.start == 0)
        }
    }

    // A task block is where its place says.
    fn place_right(self, x: Task) -> bool
        ensures { result ≡ place_right self.stands self.level self.runs self.free x }
    {
        (u16::from(self.stands) == queue_for(x.place, self.level))
            & (self.runs == (x.place == RUNNING))
            & (self.free == (x.place == FREE))
    }

    // What its place asks of a used task block by itself.
    fn own_right(self, x: Task) -> bool
        ensures { result ≡ (own_right self.units x && waiter_right self.defined self.on x && pending_right self.own self.pends x) }
    {
        let needs = (0 < self.units) & (x.core == NOT_GRANTED);
        let place = x.place;
        match place {
            IN_CORE => no_condition(x) & needs,
            IN_EVENT => (x.time == 0) & (x.request == 0) & self.waiter_right(x),
            IN_TIME => (x.count == 0) & (x.events == 0) & (x.request == 0),
            IN_CHECK => (x.count == 0)
                & (x.events == 0)
                & (x.time == 0)
                & (x.request <= REQUEST_BLOCKS)
                & !needs
                & self.own,
            ENDING => no_condition(x) & !needs & self.pends,
            _ => (place <= ENDING) & no_condition(x) & !needs,
        }
    }

    // An event waiter passes 13 and 14, and waits.
    #[tactic(auto, unfolding(crate::specs::Blocks::waiter_right))]
    fn waiter_right(self, x: Task) -> bool
        ensures { result ≡ waiter_right self.defined self.on x }
    {
        if x.place != IN_EVENT {
            return true;
        }
        let count = u32::from(x.count);
        (x.events & self.defined == x.events)
            & (1 <= count)
            & (count <= sets::ones(x.events))
            & (sets::ones(x.events & self.on) < count)
    }

    // Its reading is 0 where its place does not wait, and never past the clock.
    fn since_right(self, x: Task) -> bool
        ensures { result ≡ since_right self.clock x }
    {
        (places::waits(x.place) | (x.since == 0)) & (x.since <= self.clock)
    }
}

// ---- Request blocks.

// Every field is zero.
pub fn blank_request(q: Request) -> bool
    ensures { result ≡ blank_request q }
{
    q == Request::default()
}

// The fields of a request are in range. 13 and 14 stand as numbers, as in `request_in_range` of specs/.
fn request_in_range(q: Request) -> bool
    ensures { result ≡ request_in_range q }
{
    (q.place <= DONE)
        & (q.owner <= TASK_BLOCKS)
        & ((q.place == FREE)
            | ((q.device <= 249) & ((q.command == 13) | (q.command == 14)) & (1 <= q.bytes)))
}

// The number is that of a used task block, by the set of the free ones.
fn used(free_tasks: u32, k: u8) -> bool
    ensures { result ≡ used_by free_tasks k }
{
    (k <= TASK_BLOCKS) & (1 <= k) & !sets::has(free_tasks, u32::from(k))
}

// The channel queue for a queued request, and no queue for any other.
fn request_queue(place: u8) -> u8
    ensures { result ≡ (if eqb place 1 then channel_queue else no_queue) }
{
    if place == QUEUED {
        CHANNEL_QUEUE
    } else {
        NO_QUEUE
    }
}

// A request block is zero and free, or its fields are in range, it stands where its place says, and its owner is a used task.
pub fn request_right(stands: u8, on: bool, free: bool, free_tasks: u32, q: Request) -> bool
    ensures { result ≡ request_right stands on free (used_by free_tasks q.owner) q }
{
    if q.place == FREE {
        return (stands == NO_QUEUE) & !on & free & blank_request(q);
    }
    request_in_range(q)
        & (stands == request_queue(q.place))
        & (on == (q.place == ON_CHANNEL))
        & !free
        & used(free_tasks, q.owner)
}

// The request is queued or on the channel.
fn pending(q: Request) -> bool
    ensures { result ≡ (eqb q.place 1 || eqb q.place 2) }
{
    (q.place == QUEUED) | (q.place == ON_CHANNEL)
}

// The request is the task k's, and pending.
pub fn pends(k: u8, q: Request) -> bool
    ensures { result ≡ pends k q }
{
    (q.owner == k) & pending(q)
}

// The set of the tasks that have a request pending, with that of one request more.
pub fn with_owner(owners: u32, q: Request) -> u32
    ensures { (k : ℕ) → k ≤ task_blocks → has result k ≡ (has owners k || pends k q) }
{
    if (q.owner <= TASK_BLOCKS) & pending(q) {
        return sets::adding(owners, u32::from(q.owner));
    }
    owners
}
