// Whether a task has requests queued or on the channel.
ghost use Rattle.std.specs.Prelude.{◌≡◌};
ghost use Rattle.tables.specs.State.{read};
ghost use Rattle.meaning.specs.Finish.{pending};

use tables::Tables;
use tables::names::{ON_CHANNEL, QUEUED};

// Some request of the task k is queued or on the channel.
pub fn pending(t: Tables, k: u8) -> bool
    ensures { result ≡ pending (read t) k }
{
    t.requests[1..].iter().any(|q| (q.owner == k) & ((q.place == QUEUED) | (q.place == ON_CHANNEL)))
}
