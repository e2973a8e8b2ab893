// READ and WRITE.
ghost use Rattle.std.specs.Prelude.{◌≤◌};
ghost use Rattle.threads.specs.Threads.{Sound};
ghost use Rattle.tables.specs.State.{read};
ghost use Rattle.tables.specs.Held.{Shows};
ghost use Rattle.meaning.specs.Given.{Gives};
ghost use Rattle.meaning.specs.Services.{asked, read_or_write};
ghost use Rattle.channel.specs.Transfer.{Transferring};

use crate::queue;
use blocks::free;
use calls::Call;
use meaning::Given;
use tables::names::QUEUED;
use tables::{Request, Tables};

// The request block r is taken for the caller's request, in no queue yet.
fn ask(t: Tables, r: u8, c: Call) -> Tables
    requires { Sound t.threads × (r ≤ 16) × (c.amount ≤ 65535) }
    ensures { Shows result (asked (read t) r c) }
{
    let mut u = t;
    u.free_requests = words::sets::dropping(u.free_requests, r as u32);
    u.requests[r as usize] = Request {
        place: QUEUED,
        owner: u.running,
        device: c.number,
        command: c.code,
        bytes: c.amount as u16,
    };
    u
}

// The lowest free request block enters the channel queue by the caller's level, then arrival. An empty channel takes the first at once.
pub fn transfer(t: Tables, c: Call) -> Given
    requires { Sound t.threads × Transferring (read t) c }
    ensures { Gives result (read_or_write (read t) c) }
{
    let r = free::lowest(t.free_requests);
    let taken = ask(t, r, c);
    let entered = queue::enter(taken, r);
    let started = queue::next(entered);
    Given {
        tables: started,
        result: r,
    }
}
