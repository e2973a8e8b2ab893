// Fields: the table rules over one block and over the numbers of the tables, of any tables whose blocks are marked with their queues.
//
// It answers for the rules of 'Table rules, exactly' of document 01 that look at each block by itself. It knows blocks and marks, and nothing of what
// goes over several blocks.
#![tactic(auto)]

mod block;
mod turns;

ghost use Rattle.std.specs.Prelude.{◌≡◌};
ghost use Rattle.tables.specs.State.{read};
ghost use Rattle.meaning.specs.Rules.{directory_passes};
ghost use Rattle.fields.specs.Blocks.{Marked, first_pass};

use image::Directory;
use pools::SMALLEST_HOLE;
use tables::Tables;
use tables::names::{REQUEST_BLOCKS, REQUEST_SLOTS, TASK_BLOCKS, TASK_SLOTS};
use threads::CELLS;
use words::sets;

// "the directory passes 4 to 7"
fn directory_passes(d: Directory) -> bool
    ensures { result ≡ directory_passes d }
{
    image::entries::check(d).is_ok()
}

// The directory, the numbers of the tables, slot 0, and each block by itself.
pub fn first_pass(t: Tables, marks: [u8; CELLS]) -> bool
    requires { Marked t marks }
    ensures { result ≡ first_pass (read t) }
{
    let Some(owners) = turns::requests(&t, &marks) else {
        return false;
    };
    let d = t.directory;
    directory_passes(d)
        & (t.running <= TASK_BLOCKS)
        & (t.channel <= REQUEST_BLOCKS)
        & (t.holes <= SMALLEST_HOLE)
        & (t.on & d.defined == t.on)
        & (t.on & t.signalled == t.on)
        & (t.signalled & d.defined == t.signalled)
        & (t.free_tasks < 1 << TASK_SLOTS)
        & !sets::has(t.free_tasks, 0)
        & (t.free_requests < 1 << REQUEST_SLOTS)
        & !sets::has(t.free_requests, 0)
        & block::blank_task(t.tasks[0])
        & block::blank_request(t.requests[0])
        & (t.pools[0] == 0)
        & turns::tasks(&t, &marks, owners)
}
