// Finishing, and ending.
ghost use Rattle.tables.specs.State.{read};
ghost use Rattle.tables.specs.Held.{Shows};
ghost use Rattle.meaning.specs.Finish.{parent_ready, finished, ended};
ghost use Rattle.ending.specs.Ending.{Parent, Finishing};

use blocks::{free, pending};
use scheduler::{ready, serve};
use tables::Tables;
use tables::names::ENDING;

// The parent p, if there is one, is made ready.
fn parent_ready(t: Tables, p: u8) -> Tables
    requires { Parent t p }
    ensures { Shows result (parent_ready (read t) p) }
{
    if p == 0 {
        return t;
    }
    ready::make_ready(t, p)
}

// The task k finishes: its run is free and that core queue served; its done requests are free; a waiting parent is ready; the block is free.
pub fn finish(t: Tables, k: u8) -> Tables
    requires { Finishing t k }
    ensures { Shows result (finished (read t) k) }
{
    let a = serve::give_back(t, k);
    let b = free::free_done(a, k);
    let c = parent_ready(b, b.tasks[k as usize].parent);
    free::free_task(c, k)
}

// The task k waits as ending where it has pending requests, and keeps its core; otherwise it finishes.
pub fn end(t: Tables, k: u8) -> Tables
    requires { Finishing t k }
    ensures { Shows result (ended (read t) k) }
{
    if !pending::pending(t, k) {
        return finish(t, k);
    }
    let mut u = t;
    u.tasks[k as usize] = blocks::moving(u.clock, u.tasks[k as usize], ENDING);
    u
}
