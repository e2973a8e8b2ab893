// The pass over the request blocks, and the pass over the task blocks: a turn reads one block and hands it on.
ghost use Rattle.std.specs.Prelude.{◌≡◌, false, true, MatchOption, get_or};
ghost use Rattle.words.specs.Words.{all_of, one_to};
ghost use Rattle.image.specs.Directory.{no_entry};
ghost use Rattle.tables.specs.State.{read, request_at};
ghost use Rattle.tables.specs.Blocks.{task_blocks, request_blocks};
ghost use Rattle.fields.specs.Blocks.{Marked, Owners, pends, task_passes, request_passes};

use crate::block;
use crate::block::Told;
use image::{Directory, Entry};
use tables::Tables;
use tables::names::{REQUEST_BLOCKS, TASK_BLOCKS, TASK_COUNT};
use threads::CELLS;
use words::sets;

// Whether the request blocks pass: the tasks that have a request pending, as a set, if they do.
pub fn requests(t: &Tables, marks: &[u8; CELLS]) -> Option<u32>
    requires { Marked t.now marks.now }
    ensures { MatchOption result
        (all_of (request_passes (read t.now)) (one_to request_blocks) ≡ false)
        (λ owners. (all_of (request_passes (read t.now)) (one_to request_blocks) ≡ true) × Owners (read t.now) owners) }
{
    let mut owners: u32 = 0;
    for r in 1..=REQUEST_BLOCKS {
        let at = usize::from(r);
        let q = t.requests[at];
        let free = sets::has(t.free_requests, u32::from(r));
        if !block::request_right(
            marks[at + TASK_COUNT],
            t.channel == r,
            free,
            t.free_tasks,
            q,
        ) {
            return None;
        }
        owners = block::with_owner(owners, q);
    }
    Some(owners)
}

// The module of this number; one that names no module reads as blank.
fn entry(d: &Directory, program: u8) -> Entry
    ensures { result ≡ get_or d.now.entries program no_entry }
{
    d.entries
        .get(usize::from(program))
        .copied()
        .unwrap_or_default()
}

// The request of this number is the task k's, and pending.
fn own(t: &Tables, k: u8, r: u8) -> bool
    ensures { result ≡ pends k (request_at (read t.now) r) }
{
    t.requests
        .get(usize::from(r))
        .is_some_and(|q| block::pends(k, *q))
}

// Whether the task blocks pass; `owners` are the tasks that have a request pending.
pub fn tasks(t: &Tables, marks: &[u8; CELLS], owners: u32) -> bool
    requires marked { Marked t.now marks.now }
    requires owners { Owners (read t.now) owners }
    ensures { result ≡ all_of (task_passes (read t.now)) (one_to task_blocks) }
{
    for k in 1..=TASK_BLOCKS {
        let at = usize::from(k);
        let x = t.tasks[at];
        let e = entry(&t.directory, x.program);
        let own = own(t, k, x.request);
        let told = Told {
            modules: t.directory.modules,
            defined: t.directory.defined,
            on: t.on,
            clock: t.clock,
            level: e.level,
            units: e.units,
            stands: marks[at],
            runs: t.running == k,
            free: sets::has(t.free_tasks, u32::from(k)),
            own,
            pends: sets::has(owners, u32::from(k)),
        };
        if !told.right(x) {
            return false;
        }
    }
    true
}
