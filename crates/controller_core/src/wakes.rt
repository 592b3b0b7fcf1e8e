// When a tick is wanted.
ghost use Rattle.std.specs.Prelude.{◌≡◌, ◌≤◌, ◌==◌, ◌&&◌, ◌⊎◌, not, ℕ, true, false, List, IfSome, IfNone};
ghost use Rattle.kube_objects.specs.Document.{Doc};
ghost use Rattle.kube_objects.specs.Elector.{leads};
ghost use Rattle.kube_objects.specs.Entry.{Entry, Identity};
ghost use Rattle.kube_objects.specs.InForce.{watches};
ghost use Rattle.kube_objects.specs.Newest.{only_if};
ghost use Rattle.kube_objects.specs.Seen.{is_fresh};
ghost use Rattle.kube_objects.specs.Tick.{settles_at};
ghost use Rattle.kube_objects.specs.declared.pod.Due.TheVariants.{Never, At};
ghost use Rattle.object_store.specs.Stands.{StoreStands};
ghost use Rattle.tick_laws.specs.Judged.{term_due};
ghost use Rattle.tick_laws.specs.Room.{AreInBeats};
ghost use Rattle.controller_core.specs.Wakes.{IsRoomReading, is_cleaned_now};
ghost use Rattle.controller_core.specs.Passing.{reading_of};

use crate::Term;
use crate::sync::{syncs, syncs_at_once};
use kube_base::Local;
use kube_objects::JudgeRule;
use object_store::Store;

impl Term {
    ghost use Rattle.kube_objects.specs.declared.key.Key.{Key};
    ghost use Rattle.controller_core.specs.TermStands.{TermStands};

    /// The least due of the pods that aren't stale, in microseconds since 1970: of those whose node is seen, or of those that have a row; none
    /// exactly if none is due ever.
    pub fn least_due(&self) -> Option<u128>
        ensures there { (doc : Doc) (q : Identity) (h : List Entry) → TermStands doc q h self.now
            → IfSome result (λ at. (key : Key) × (term_due doc q key h ≡ At at)) }
        ensures least { (doc : Doc) (q : Identity) (h : List Entry) → TermStands doc q h self.now
            → IfSome result (λ at. (key : Key) (other : ℕ) → term_due doc q key h ≡ At other → at ≤ other) }
        ensures none { (doc : Doc) (q : Identity) (h : List Entry) → TermStands doc q h self.now
            → IfNone result ((key : Key) → term_due doc q key h ≡ Never) }
    {
        self.cluster.least_due()
    }

    /// The reading from which on a tick may delete a pod that is due; none if none may any more.
    pub fn delete_wake(&self) -> Option<Local>
        ensures { (doc : Doc) (q : Identity) (h : List Entry) → TermStands doc q h self.now → AreInBeats h
            → IsRoomReading doc q h (reading_of result) }
    {
        self.allowance.ready_at()
    }

    /// Whether a tick now would have a sync, an untaint or a swap, whatever the time: a sync only if a term settles at its lead, the others only
    /// if nodes are judged at each tick.
    pub fn at_once(&self, store: &Store, watch: bool) -> bool
        ensures quiet { (doc : Doc) (q : Identity) (h : List Entry) → TermStands doc q h self.now → StoreStands h store.now
            → watch ≡ watches doc q.process h → result ≡ false
            → (((doc.settings.rules.first_sync_millis == 0) && (watches doc q.process h && not (is_fresh q h))) ≡ false) × ((n : ℕ) → is_cleaned_now doc q n h ≡ false) }
        ensures busy { (doc : Doc) (q : Identity) (h : List Entry) → TermStands doc q h self.now → StoreStands h store.now
            → watch ≡ watches doc q.process h → result ≡ true
            → (((doc.settings.rules.first_sync_millis == 0) && (watches doc q.process h && not (is_fresh q h))) ≡ true) ⊎ ((n : ℕ) × (is_cleaned_now doc q n h ≡ true)) }
    {
        if syncs_at_once(self.settings.first_sync_millis, &self.cluster, store, watch) {
            return true;
        }
        match self.settings.judge {
            JudgeRule::Tick => self.cluster.is_unclean(),
            JudgeRule::Pass => false,
        }
    }

    /// The reading from which on a tick has a sync, if one is due and a term that leads takes time to settle. None if there is none.
    pub fn sync_wake(&self, store: &Store, watch: bool) -> Option<Local>
        ensures { (doc : Doc) (q : Identity) (h : List Entry) → TermStands doc q h self.now → StoreStands h store.now
            → watch ≡ watches doc q.process h → leads q h ≡ true
            → reading_of result ≡ only_if (watches doc q.process h && not (is_fresh q h)) (settles_at doc q h) }
    {
        if !syncs(&self.cluster, store, watch) {
            return None;
        }
        self.settles
    }
}
