// What a process waits for.
ghost use Rattle.std.specs.Prelude.{◌≡◌, true, None};
ghost use Rattle.agenda_laws.specs.Times.{sooner as soonest};
ghost use Rattle.world_core.specs.Waits.{beat_of};

use kube_base::{Beat, Local};

/// What a process waits for: something that is there already, a reading of its clock, or a time of day in microseconds since 1970 that
/// counts from another reading on, which is none if it never does.
#[derive(Clone, Copy, Debug, PartialEq, Eq)]
pub struct Wakes {
    pub at_once: bool,
    pub local: Option<Local>,
    pub wall: Option<u128>,
    pub room: Option<Local>,
}

impl Wakes {
    /// Something is there already.
    pub(crate) fn at_once() -> Wakes
        ensures { result ≡ record { at_once = true; local = None; wall = None; room = None } }
    {
        Wakes::with(true, None, None, None)
    }

    /// This is waited for.
    pub(crate) fn with(
        at_once: bool,
        local: Option<Local>,
        wall: Option<u128>,
        room: Option<Local>,
    ) -> Wakes
        ensures { result ≡ record { at_once = at_once; local = local; wall = wall; room = room } }
    {
        Wakes {
            at_once,
            local,
            wall,
            room,
        }
    }
}

/// The sooner of two beats, of which each may be none.
pub fn sooner_beat(one: Option<Beat>, other: Option<Beat>) -> Option<Beat>
    ensures { beat_of result ≡ soonest (beat_of one) (beat_of other) }
{
    match (one, other) {
        (None, other) => other,
        (Some(one), Some(other)) if other.0 < one.0 => Some(other),
        (one, _) => one,
    }
}
