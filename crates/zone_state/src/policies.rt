// The rate policies, which the caller hands in.
ghost use Rattle.std.specs.Prelude.{◌≡◌, ◌≤◌};
ghost use Rattle.zone_state.specs.Views.{MayBeCalled, Answers, partial_of, full_of, view_rate};

use crate::ZoneView;
use kube_objects::ZoneState;

/// A function that gives the rate of a Partial zone.
pub type PartialRate = fn(ZoneView) -> u32;

/// A function that gives the rate of a Full zone.
pub type FullRate = fn(ZoneView) -> u32;

/// The functions that give the rates of disrupted zones, kept beside the fact that they answer as the policies say.
///
/// On every view whose secondary rate is at most its primary one, `partial` returns the secondary rate if the zone
/// is larger than the threshold and 0 otherwise under Standard, the secondary rate under Gentle, 0 under Halt; `full`
/// returns the primary rate under Standard, the secondary rate under Gentle, 0 under Halt.
///
/// A program makes them and hands them in: one that has this library in it may bring functions of its own, as long as they answer so.
/// `partial` and `full` of this crate do.
#[derive(Drop)]
pub struct Policies {
    partial: PartialRate,
    full: FullRate,
    ghost partial_callable: { MayBeCalled (PartialRate.pre partial) },
    ghost full_callable: { MayBeCalled (FullRate.pre full) },
    ghost partial_answers: { Answers partial_of (PartialRate.post partial) },
    ghost full_answers: { Answers full_of (FullRate.post full) },
}

impl Policies {
    /// Keeps the two functions.
    pub fn new(partial: PartialRate, full: FullRate) -> Policies
        requires partial_callable { MayBeCalled (PartialRate.pre partial) }
        requires full_callable { MayBeCalled (FullRate.pre full) }
        requires partial_answers { Answers partial_of (PartialRate.post partial) }
        requires full_answers { Answers full_of (FullRate.post full) }
    {
        Policies { partial, full }
    }

    /// The rate of a zone: 0 if every zone is Full, else the primary rate in Normal, and the stored function's
    /// answer in Partial and Full. It is at most the primary rate.
    pub fn rate(&self, state: ZoneState, all_full: bool, view: ZoneView) -> u32
        requires { view.secondary ≤ view.primary }
        ensures rate { result ≡ view_rate all_full state view }
        ensures at_most_primary { result ≤ view.primary }
    {
        if all_full {
            return 0;
        }
        match state {
            ZoneState::Normal => view.primary,
            ZoneState::Partial => (self.partial)(view),
            ZoneState::Full => (self.full)(view),
        }
    }
}
