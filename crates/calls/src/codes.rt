// The fixed table over the codes 0 to 35, and what it says of any code.
ghost use Rattle.std.specs.Prelude.{◌≡◌};
ghost use Rattle.calls.specs.Calls.{known, needs_task, code_entry};

// The codes. They stay numbers: a call may carry any byte as its code, a known one or not, and what is written of a call has to be read as that call
// (`from_gives` of `From<Call>`).
pub const FREEMAIN: u8 = 1;

pub const LINK: u8 = 5;

pub const END: u8 = 6;

pub const SCHEDULE: u8 = 7;

pub const WAIT: u8 = 8;

pub const SIGNAL: u8 = 9;

pub const TEST_EVENT: u8 = 10;

pub const DISPATCH_CHECK: u8 = 12;

pub const READ: u8 = 13;

pub const WRITE: u8 = 14;

pub const CHECK: u8 = 15;

pub const TIMER: u8 = 32;

pub const IO_DONE: u8 = 33;

pub const PROGRAM_CHECK: u8 = 34;

pub const OPERATOR_START: u8 = 35;

// What the table says of a code.
#[derive(Clone, Copy, Debug, PartialEq, Eq)]
enum Status {
    Unknown,
    Known,
    // Known, and it needs a running task.
    NeedsTask,
}

const CODES: [Status; 36] = [
    Status::Unknown, // 0
    Status::NeedsTask, // 1 FREEMAIN
    Status::Unknown, // 2
    Status::Unknown, // 3
    Status::Unknown, // 4
    Status::NeedsTask, // 5 LINK
    Status::NeedsTask, // 6 END
    Status::NeedsTask, // 7 SCHEDULE
    Status::NeedsTask, // 8 WAIT
    Status::NeedsTask, // 9 SIGNAL
    Status::NeedsTask, // 10 TEST EVENT
    Status::Unknown, // 11
    Status::NeedsTask, // 12 DISPATCH CHECK
    Status::NeedsTask, // 13 READ
    Status::NeedsTask, // 14 WRITE
    Status::NeedsTask, // 15 CHECK
    Status::Unknown, // 16
    Status::Unknown, // 17
    Status::Unknown, // 18
    Status::Unknown, // 19
    Status::Unknown, // 20
    Status::Unknown, // 21
    Status::Unknown, // 22
    Status::Unknown, // 23
    Status::Unknown, // 24
    Status::Unknown, // 25
    Status::Unknown, // 26
    Status::Unknown, // 27
    Status::Unknown, // 28
    Status::Unknown, // 29
    Status::Unknown, // 30
    Status::Unknown, // 31
    Status::Known, // 32 timer
    Status::Known, // 33 I/O done
    Status::NeedsTask, // 34 program check
    Status::Known, // 35 operator start
];

// The table's entry for a code; a code past the table is unknown.
fn entry(code: u8) -> Status
    ensures { result ≡ code_entry code }
{
    let at = code as usize;
    if at < 36 { CODES[at] } else { Status::Unknown }
}

// Whether a code is one of document 01's.
pub fn is_known(code: u8) -> bool
    ensures { result ≡ known code }
{
    entry(code) != Status::Unknown
}

// Whether a call of this code needs a running task.
pub fn needs_task(code: u8) -> bool
    ensures { result ≡ needs_task code }
{
    entry(code) == Status::NeedsTask
}
