// Pointers: whether any pointers are those of nine queues, and in which queue each block stands.
//
// It answers for "Task and request blocks carry a forward and a back pointer for the queue they are on", one of the table rules of document 01. It knows
// pointers, and nothing of what a block holds.
#![tactic(auto)]

ghost use Rattle.std.specs.Prelude.{◌≡◌, is_some, unwrap_or};
ghost use Rattle.pointers.specs.Walked.{clear_by, rest_clear, no_marks, Walks};

use threads::{BLOCKS, CELLS, QUEUES, Threads};

// The mark of a block that is in no queue. A mark is a number and no Option: the meaning's `standing` is the number of a queue, and this one for none.
pub const NO_QUEUE: u8 = QUEUES as u8;

// The last block, and the last queue.
const LAST_BLOCK: u8 = BLOCKS as u8;

const LAST_QUEUE: u8 = QUEUES as u8 - 1;

// A walk meets each block once, and the end of each queue.
const STEPS: u8 = (BLOCKS + QUEUES) as u8 + 1;

// A block that is marked with no queue has pointers of zero.
fn clear(mark: u8, fwd: u8, back: u8) -> bool
    ensures { result ≡ clear_by mark fwd back }
{
    !(mark == NO_QUEUE) | ((fwd == 0) & (back == 0))
}

// Every block that has no mark, and slot 0, has pointers of zero.
fn rest_clear(t: Threads, marks: [u8; CELLS]) -> bool
    ensures { result ≡ rest_clear t marks }
{
    marks
        .iter()
        .zip(&t.fwd)
        .zip(&t.back)
        .all(|((mark, fwd), back)| clear(*mark, *fwd, *back))
}

// Are these the pointers of nine lists of blocks, in which none stands twice? If so, the queue of each block. Each queue is walked from its first block along
// `fwd`, and each block is marked with its queue: a marked block ends the walk, so that no ring can hold it.
pub fn walked(t: Threads) -> Option<[u8; CELLS]>
    ensures { Walks t (is_some result) (unwrap_or result no_marks) }
{
    let mut marks = [NO_QUEUE; CELLS];
    let mut q: u8 = 0;
    let mut p: u8 = 0;
    let mut y = t.first[0];
    for _n in 0..STEPS {
        if y == 0 {
            if t.last[usize::from(q)] != p {
                return None;
            }
            if q == LAST_QUEUE {
                return rest_clear(t, marks).then_some(marks);
            }
            q += 1;
            p = 0;
            y = t.first[usize::from(q)];
            continue;
        }
        if LAST_BLOCK < y {
            return None;
        }
        let at = usize::from(y);
        if marks[at] != NO_QUEUE {
            return None;
        }
        if t.back[at] != p {
            return None;
        }
        marks[at] = q;
        p = y;
        y = t.fwd[at];
    }
    None
}
