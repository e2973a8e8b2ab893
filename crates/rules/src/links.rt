// The rules over LINK parents and over core, of tables whose fields are right: one look at each task block gathers what they ask.
ghost use Rattle.std.specs.Prelude.{◌&&◌, ◌≡◌, ◌<◌, ◌≤◌, eqb};
ghost use Rattle.tables.specs.State.{read};
ghost use Rattle.tables.specs.Blocks.{task_blocks};
ghost use Rattle.meaning.specs.Rules.{linked, chains_end, core_held, upward};
ghost use Rattle.rules.specs.Orderly.{Orderly};
ghost use Rattle.rules.specs.Links.{Exact, Seen, with_set, alone};

use tables::Tables;
use tables::names::{HOLDS_RUN, IN_LINK, TASK_BLOCKS};
use words::sets;

// Of sets that are looked at one after the other: what is in one of them, and what is in two.
#[derive(Clone, Copy, Default)]
pub struct Met {
    pub once: u64,
    pub twice: u64,
}

impl Met {
    // A set more.
    fn with(self, set: u64) -> Met
        ensures { result ≡ with_set self set }
    {
        Met {
            once: self.once | set,
            twice: self.twice | (self.once & set),
        }
    }

    // None was met twice, and those that were met are the wanted ones.
    fn exact(self, wanted: u64) -> bool
        ensures { Exact self.once self.twice wanted result }
    {
        (self.twice == 0) & (self.once == wanted)
    }
}

// What one look at each task block tells: the parents, the LINK waiters, whether each chain of parents ends, and level by level the units of the runs.
#[derive(Clone, Copy)]
pub struct Links {
    pub parents: Met,
    pub waits: u64,
    pub ends: bool,
    pub runs: [Met; 4],
}

// The task k as a set, where it waits in LINK.
fn waiter(place: u8, k: u8) -> u64
    requires { k < 64 }
    ensures { result ≡ alone place k }
{
    if place == IN_LINK {
        return sets::adding(0, u32::from(k));
    }
    0
}

// The chain of parents is walked up from its task, until there is none above or 24 steps are done: does it end?
fn chain_ends(t: &Tables, k: u8) -> bool
    requires orderly { Orderly t.now }
    requires block { k ≤ task_blocks }
    ensures { result ≡ eqb (upward (read t.now) 24 k) 0 }
{
    let mut y = t.tasks[usize::from(k)].parent;
    for _n in 1..TASK_BLOCKS {
        if y == 0 {
            return true;
        }
        y = t.tasks[usize::from(y)].parent;
    }
    y == 0
}

// One look at each task block.
fn seen(t: &Tables) -> Links
    requires { Orderly t.now }
    ensures { Seen (read t.now) 24 result.parents result.waits result.ends result.runs }
{
    let mut parents = Met::default();
    let mut waits: u64 = 0;
    let mut ends = true;
    let mut runs = [Met::default(); 4];
    for k in 1..=TASK_BLOCKS {
        let x = t.tasks[usize::from(k)];
        parents = parents.with(sets::adding(0, u32::from(x.parent)));
        waits |= waiter(x.place, k);
        ends = ends & chain_ends(t, k);
        if x.core == HOLDS_RUN {
            let e = t.directory.entries[usize::from(x.program)];
            let level = usize::from(e.level);
            runs[level] = runs[level].with(pools::mask(x.start, e.units));
        }
    }
    Links {
        parents,
        waits,
        ends,
        runs,
    }
}

// "Core runs of a level are disjoint and with its free units make 64", "LINK parents never form a ring", and "a LINK waiter has exactly one child, a
// parent is in LINK": of each set of blocks the slot 0, which is none, is left out.
pub fn links_right(t: &Tables) -> bool
    requires { Orderly t.now }
    ensures { result ≡ (core_held (read t.now) && chains_end (read t.now) && linked (read t.now)) }
{
    let g = seen(t);
    let parents = Met {
        once: g.parents.once / 2,
        twice: g.parents.twice / 2,
    };
    g.runs[1].exact(t.pools[1])
        & g.runs[2].exact(t.pools[2])
        & g.runs[3].exact(t.pools[3])
        & g.ends
        & parents.exact(g.waits / 2)
}
