// The readings at which a tick has a pass or a queued taint.
ghost use Rattle.std.specs.Prelude.{◌≡◌, ◌≤◌, ◌<◌, ◌⊎◌, ℕ, true, false, List, Some, None, IfSome, IfNone};
ghost use Rattle.kube_base.specs.Bounds.{most_local};
ghost use Rattle.kube_objects.specs.Clocks.{local};
ghost use Rattle.kube_objects.specs.Document.{Doc};
ghost use Rattle.kube_objects.specs.Entry as model;
ghost use Rattle.kube_objects.specs.Entry.{Entry, Identity};
ghost use Rattle.kube_objects.specs.Health.{is_pass_due, last_pass};
ghost use Rattle.taint_zones.specs.Places.{entry_place};
ghost use Rattle.taint_zones.specs.Waiting.{IsAfter};
ghost use Rattle.controller_core.specs.HeadsStand.{HasHead, IsNextHead};
ghost use Rattle.controller_core.specs.Wakes.{IsHeadDue, IsLeastAwaited, IsTokenReading};

use crate::Term;
use kube_base::Local;
use kube_objects::JudgeRule;
use taint_zones::Place;

// The earlier of two readings, where there is another.
fn earlier(least: Local, other: Option<Local>) -> Local
    ensures least { result.0 ≤ least.0 }
    ensures other { IfSome other (λ at. result.0 ≤ at.0) }
    ensures there { (result ≡ least) ⊎ (other ≡ Some result) }
{
    match other {
        None => least,
        Some(other) => {
            if other.0 < least.0 {
                return other;
            }
            least
        }
    }
}

impl Term {
    ghost use Rattle.controller_core.specs.TermStands.{TermStands};

    // Who comes first in a zone.
    fn head(&self, place: Place) -> Option<u32>
        ensures some { (doc : Doc) (q : Identity) (h : List Entry) → TermStands doc q h self.now
            → IfSome result (λ name. HasHead doc q h (entry_place place)) }
        ensures none { (doc : Doc) (q : Identity) (h : List Entry) → TermStands doc q h self.now
            → IfNone result (¬ HasHead doc q h (entry_place place)) }
    {
        match self.settings.judge {
            JudgeRule::Tick => self.zones.queues.head(place),
            JudgeRule::Pass => self.zones.pushes.head(place),
        }
    }

    // The next zone after this one, or the first, that has a queue.
    fn next_zone(&self, after: Option<Place>) -> Option<Place>
        ensures later { IfSome result (λ next. IsAfter after next) }
        ensures next { (doc : Doc) (q : Identity) (h : List Entry) → TermStands doc q h self.now → IsNextHead doc q h after result }
    {
        match self.settings.judge {
            JudgeRule::Tick => self.zones.queues.next_zone(after),
            JudgeRule::Pass => self.zones.pushes.next_zone(after),
        }
    }

    // The reading at which a zone's token is there, where its queue has a head.
    fn ready(&self, place: Place) -> Option<Local>
        ensures reading { (doc : Doc) (q : Identity) (h : List Entry) → TermStands doc q h self.now
            → IfSome result (λ at. IsTokenReading doc q h (entry_place place) at.0) }
        ensures none { (doc : Doc) (q : Identity) (h : List Entry) → TermStands doc q h self.now
            → IfNone result ((at : ℕ) → ¬ IsTokenReading doc q h (entry_place place) at) }
    {
        let Some(_) = self.head(place) else {
            return None;
        };
        match self.zones.limits.get(&place) {
            None => None,
            Some(limit) => limit.bucket.ready_at(),
        }
    }

    // The least of this reading and of those at which the head of a queue, as it is now, has its turn.
    fn first_ready(&self, given: Local) -> Local
        ensures least { result.0 ≤ given.0 }
        ensures all { (doc : Doc) (q : Identity) (h : List Entry) (place : model.Place) (at : ℕ) → TermStands doc q h self.now
            → IsTokenReading doc q h place at → result.0 ≤ at }
        ensures there { (doc : Doc) (q : Identity) (h : List Entry) → TermStands doc q h self.now
            → (result ≡ given) ⊎ ((place : model.Place) × IsTokenReading doc q h place result.0) }
    {
        let mut least = given;
        let mut next = self.next_zone(None);
        while let Some(place) = next {
            least = earlier(least, self.ready(place));
            next = self.next_zone(Some(place));
        }
        least
    }

    /// The least reading at which a tick has a pass, or a queued taint of those who wait now: a period after the last pass and its
    /// work, or if the token of a zone is there in which somebody waits; if that is no u64, the greatest one. None exactly if
    /// there was no pass. At which beats it has come is told for readings of at most `most_local`.
    pub fn wake(&self) -> Option<Local>
        ensures none { (doc : Doc) (q : Identity) (h : List Entry) → TermStands doc q h self.now → IfNone result (last_pass q h ≡ None) }
        ensures some { (doc : Doc) (q : Identity) (h : List Entry) → TermStands doc q h self.now
            → IfSome result (λ at. ¬ (last_pass q h ≡ None)) }
        ensures reading { (doc : Doc) (q : Identity) (h : List Entry) → TermStands doc q h self.now
            → IfSome result (λ at. IsLeastAwaited doc q h at.0) }
        ensures early { (doc : Doc) (k : ℕ) (q : Identity) (h : List Entry) → TermStands doc q h self.now
            → local doc q.process k ≤ most_local → IfSome result (λ at. local doc q.process k < at.0
            → (is_pass_due doc k q h ≡ false) × ((place : model.Place) → ¬ IsHeadDue doc k q h place)) }
        ensures there { (doc : Doc) (k : ℕ) (q : Identity) (h : List Entry) → TermStands doc q h self.now
            → local doc q.process k ≤ most_local → IfSome result (λ at. at.0 ≤ local doc q.process k
            → (is_pass_due doc k q h ≡ true) ⊎ ((place : model.Place) × IsHeadDue doc k q h place)) }
    {
        let last = self.last?;
        Some(self.first_ready(Local(last.at.0.saturating_add(last.period))))
    }
}
