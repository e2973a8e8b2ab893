// Where a task waits, and since when: what a block gets that is put into a place.
ghost use Rattle.std.specs.Prelude.{◌≡◌};
ghost use Rattle.tables.specs.Blocks.{waits_in, since_in};

use crate::names::{ENDING, IN_CHECK, IN_CORE, IN_EVENT, IN_LINK, IN_TIME};

// A task waits in this place.
pub fn waits(place: u8) -> bool
    ensures { result ≡ waits_in place }
{
    match place {
        IN_CORE | IN_EVENT | IN_TIME | IN_LINK | IN_CHECK | ENDING => true,
        _ => false,
    }
}

// The reading of a block that is put into a place: the clock where the place waits, and 0 where it does not.
pub fn since(clock: u32, place: u8) -> u32
    ensures { result ≡ since_in clock place }
{
    if waits(place) {
        return clock;
    }
    0
}
