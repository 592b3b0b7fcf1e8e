// What a line means for its actor as a leader.
ghost use Rattle.std.specs.Prelude.{◌≡◌};
ghost use Rattle.trace_lines.specs.Reads.{said};
ghost use Rattle.lens_terms.specs.Terms as spec;

use crate::closing::Ending;
use trace_lines::Says;

/// What a line means for its actor as a leader.
#[derive(Clone, Copy)]
pub enum Turn {
    /// It begins one.
    Leads,
    /// It ends them.
    Ends(Ending),
    /// It has the actor stand still for so many beats.
    Pauses(u32),
    /// Nothing.
    Keeps,
}

/// What the words of a line mean for the terms of its actor.
pub(crate) fn turn_of(says: &Says<&[u8]>) -> Turn
    ensures { result ≡ spec.turn_of (said says.now) }
{
    match says {
        Says::Lead(_) => Turn::Leads,
        Says::End => Turn::Ends(Ending::End),
        Says::Stop => Turn::Ends(Ending::Stop),
        Says::Crash => Turn::Ends(Ending::Crash),
        Says::Start => Turn::Keeps,
        Says::Pause(beats) => Turn::Pauses(*beats),
        Says::Stall(_) => Turn::Keeps,
        Says::Election(_, _, _) => Turn::Keeps,
        Says::NodeLease(_, _, _) => Turn::Keeps,
        Says::Status(_, _, _) => Turn::Keeps,
        Says::Put(_, _) => Turn::Keeps,
        Says::Remove(_, _) => Turn::Keeps,
        Says::Unknown(_, _, _) => Turn::Keeps,
        Says::Mode(_) => Turn::Keeps,
        Says::Zone(_, _, _) => Turn::Keeps,
        Says::Taint(_, _, _) => Turn::Keeps,
        Says::Swap(_, _, _) => Turn::Keeps,
        Says::Untaint(_, _) => Turn::Keeps,
        Says::Evict(_, _, _) => Turn::Keeps,
    }
}
