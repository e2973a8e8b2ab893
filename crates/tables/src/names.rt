// The numbers that the tables hold, by name; specs/Blocks.antt and specs/State.antt have the same names for what must be believed.

// "Task blocks 1 to 24. Request blocks 1 to 16." In a queue, request block r is the number r + TASK_BLOCKS.
pub const TASK_BLOCKS: u8 = 24;

pub const REQUEST_BLOCKS: u8 = 16;

// The same as indices; and the slots of their arrays, of which slot 0 is no block.
pub const TASK_COUNT: usize = TASK_BLOCKS as usize;

pub const REQUEST_COUNT: usize = REQUEST_BLOCKS as usize;

pub const TASK_SLOTS: usize = TASK_COUNT + 1;

pub const REQUEST_SLOTS: usize = REQUEST_COUNT + 1;

// The place of a task block. Places and the three states of core are numbers and no enums: C holds the tables, a byte of them may have any value, and the
// check of the tables answers for each.
pub const FREE: u8 = 0;

pub const RUNNING: u8 = 1;

pub const READY: u8 = 2;

pub const IN_CORE: u8 = 3;

pub const IN_EVENT: u8 = 4;

pub const IN_TIME: u8 = 5;

pub const IN_LINK: u8 = 6;

pub const IN_CHECK: u8 = 7;

pub const ENDING: u8 = 8;

// The place of a request block; a free one is FREE.
pub const QUEUED: u8 = 1;

pub const ON_CHANNEL: u8 = 2;

pub const DONE: u8 = 3;

// Whether core was never granted, is held, or was given back.
pub const NOT_GRANTED: u8 = 0;

pub const HOLDS_RUN: u8 = 1;

pub const GAVE_BACK: u8 = 2;

// The nine queues. The ready queue of a level has the level's own number, and its core queue is LEVELS further on.
pub const LEVELS: u8 = 3;

pub const EVENT_QUEUE: u8 = 0;

pub const TIME_QUEUE: u8 = 7;

pub const CHANNEL_QUEUE: u8 = 8;
