// The beat at which a process wakes.
ghost use Rattle.std.specs.Prelude.{◌≡◌, true};
ghost use Rattle.skew_clock.specs.Clocking.{Clocking};
ghost use Rattle.world_process.specs.Beats.{IsBeatOf};

use crate::clocks::first_beat;
use kube_base::{Beat, Local};
use skew_clock::Clock;

/// The first beat at which a clock reads something, kept so that it needn't be found at each look.
#[derive(Clone, Copy, Debug, PartialEq, Eq)]
pub struct Waking {
    pub below: Option<Local>,
    pub until: Option<Beat>,
}

impl Waking {
    /// Nothing is waited for.
    pub fn new() -> Waking
        ensures { (clock : Clocking) → IsBeatOf clock result.until result.below }
    {
        Waking {
            below: None,
            until: None,
        }
    }

    /// The first beat up to its end at which a clock reads this. None if there is none, or nothing is waited for. The kept beat
    /// is the answer if it was found for the same reading.
    pub fn beat_of(&self, clock: &Clock, at: Option<Local>) -> Option<Beat>
        ensures { IsBeatOf clock.now self.now.until self.now.below → IsBeatOf clock.now result at }
    {
        if is_same(at, self.below) {
            return self.until;
        }
        first_beat(clock, at)
    }

    /// Finds that beat and keeps it.
    pub fn keep(&mut self, clock: &Clock, at: Option<Local>)
        ensures kept { IsBeatOf clock.now self.old.until self.old.below → IsBeatOf clock.now self.new.until self.new.below }
        ensures found { IsBeatOf clock.now self.old.until self.old.below → IsBeatOf clock.now self.new.until at }
    {
        if is_same(at, self.below) {
            return;
        }
        self.find(clock, at);
    }

    // It stays out of line, so that a process that sleeps costs two comparisons.
    #[inline(never)]
    fn find(&mut self, clock: &Clock, at: Option<Local>)
        ensures beat { IsBeatOf clock.now self.new.until at }
        ensures below { self.new.below ≡ at }
    {
        self.until = first_beat(clock, at);
        self.below = at;
    }
}

fn is_same(a: Option<Local>, b: Option<Local>) -> bool
    ensures { result ≡ true → a ≡ b }
{
    match (a, b) {
        (Some(a), Some(b)) => a.0 == b.0,
        (None, None) => true,
        _ => false,
    }
}
