// FREEMAIN, END and program check: the caller gives its core back, ends, or is aborted.
ghost use Rattle.std.specs.Prelude.{◌≢◌};
ghost use Rattle.calls.specs.declared.Call.{Call};
ghost use Rattle.tables.specs.State.{read};
ghost use Rattle.tables.specs.Held.{Shows};
ghost use Rattle.meaning.specs.Services.{freemain, end, program_check};
ghost use Rattle.lawful.specs.Tables.{LawfulTables};

use ending::{abort, finish};
use scheduler::serve;
use tables::Tables;
use tables::names::TASK_BLOCKS;

// The caller's run is free, if it holds one; it is not granted again.
pub fn freemain(t: Tables) -> Tables
    requires { LawfulTables t × (t.running ≢ 0) }
    ensures { (c : Call) → Shows result (freemain (read t) c).state }
{
    serve::give_back(t, t.running)
}

// The caller stops running, and waits as ending where it has pending requests; otherwise it finishes.
pub fn end(t: Tables) -> Tables
    requires { LawfulTables t × (t.running ≢ 0) }
    ensures { (c : Call) → Shows result (end (read t) c).state }
{
    finish::end(Tables { running: 0, ..t }, t.running)
}

// The running task is aborted, and then its parent, and so on upward: at most 24 tasks.
pub fn program_check(t: Tables) -> Tables
    requires { LawfulTables t × (t.running ≢ 0) }
    ensures { (c : Call) → Shows result (program_check (read t) c).state }
{
    abort::abort(Tables { running: 0, ..t }, t.running, TASK_BLOCKS)
}
