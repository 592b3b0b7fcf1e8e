// A controller's tick, and what its term waits for.
ghost use Rattle.std.specs.Prelude.{◌≡◌, ◌≤◌, not, ℕ, true, false, List, OnOk, option_map};
ghost use Rattle.kube_objects.specs.Clocks.{local};
ghost use Rattle.kube_objects.specs.Document.{Doc};
ghost use Rattle.kube_objects.specs.Elector.{leads};
ghost use Rattle.kube_objects.specs.Entry.{Entry, Identity};
ghost use Rattle.kube_objects.specs.InForce.{watches};
ghost use Rattle.kube_objects.specs.Wire.{loses_requests};
ghost use Rattle.agenda_laws.specs.Ticking.{is_due_at_once, room_at, sync_at, synced_reading, term_time};
ghost use Rattle.controller_core.specs.Working.{kept};
ghost use Rattle.agenda_laws.specs.Times.{is_early};
ghost use Rattle.object_store.specs.Stands.{StoreStands};
ghost use Rattle.tick_laws.specs.Room.{AreInBeats, AreUpTo};
ghost use Rattle.world_process.specs.Beats.{reading_of};
ghost use Rattle.world_process.specs.Controllers.{ControllerStands, SameController, Ticked, is_up_as};
ghost use Rattle.world_process.specs.OwnTerm.{CanTick, IsUpAs};

use crate::controller::Controller;
use kube_base::{Beat, Local, NoMemory, Steps};
use kube_objects::Deeds;
use object_store::Store;
use std::sync::ledger::Blank;
use term_state::View;
use zone_state::Policies;

impl Controller {
    /// Its tick, if it acts as the leader: in a term that isn't over or in a release, and not in a pause. It is told whether its watch is on and
    /// whether its requests pass. What is printed of the tick is added to the deeds.
    pub fn tick(
        &mut self,
        beat: Beat,
        watch: bool,
        passes: bool,
        store: &mut Store,
        policies: &Policies,
        deeds: &mut Deeds,
    ) -> Result<(), NoMemory>
        requires { beat.0 ≤ self.old.clock.end }
        ensures same { SameController self.old self.new }
        ensures stands { (doc : Doc) (k p : ℕ) (h : List Entry) → ControllerStands doc p h self.old → StoreStands h store.old
            → beat.0 ≡ k → watch ≡ watches doc p h → passes ≡ not (loses_requests p h) → CanTick doc k p h
            → OnOk result (Ticked doc k p h self.new store.new deeds.old deeds.new) }
    {
        let Some(acting) = self.role.acting(&self.clock, beat) else {
            return Ok(());
        };
        if self.pauses.is_paused(beat) {
            return Ok(());
        }
        let now = self.clock.local(beat);
        let wall = self.clock.wall_at(now);
        let view = View {
            watch,
            passes,
            beat,
            now,
            wall,
        };
        // A tick counts its steps, for its contract; a beat counts as one step, so they aren't handed on.
        let mut steps = Steps::new(Blank::new(1));
        let printed = self.term.tick(&acting, store, &view, policies, &mut steps)?;
        deeds.append(&printed)
    }

    // Forgets what its term had seen, where it has gone down: nobody asks for it any more, and it would take memory until the next
    // start. What it was stays.
    pub(crate) fn forget_term(&mut self)
        requires { is_up_as self.old.role ≡ false }
        ensures same { SameController self.old self.new }
        ensures incarnation { self.new.incarnation ≡ self.old.incarnation }
        ensures stands { (doc : Doc) (p : ℕ) (h : List Entry) → ControllerStands doc p h self.old → ControllerStands doc p h self.new }
    {
        self.term.renew();
    }

    /// Whether a tick of its term would have a sync, an untaint or a swap now, whatever the time.
    pub fn at_once(&self, store: &Store, watch: bool) -> bool
        ensures { (doc : Doc) (q : Identity) (h : List Entry) → ControllerStands doc q.process h self.now → StoreStands h store.now
            → watch ≡ watches doc q.process h → IsUpAs doc q h → result ≡ is_due_at_once doc q h }
    {
        self.term.at_once(store, watch)
    }

    /// The reading from which on a tick of its term has a sync, if it leads, one is due and the term takes time to settle. None if
    /// there is none.
    pub fn sync_wake(&self, store: &Store, watch: bool) -> Option<Local>
        ensures { (doc : Doc) (q : Identity) (h : List Entry) → ControllerStands doc q.process h self.now → StoreStands h store.now
            → watch ≡ watches doc q.process h → IsUpAs doc q h → leads q h ≡ true → reading_of result ≡ sync_at doc q h }
    {
        self.term.sync_wake(store, watch)
    }

    /// The least reading at which a tick of its term has a pass, or a queued taint of those who wait now; if it is no u64, the greatest
    /// one. None if there is none.
    pub fn term_wake(&self) -> Option<Local>
        ensures { (doc : Doc) (q : Identity) (h : List Entry) → ControllerStands doc q.process h self.now → IsUpAs doc q h
            → reading_of result ≡ option_map kept (synced_reading doc q h) }
    {
        self.term.wake()
    }

    /// The least due of the pods that its term sees, the stale ones aside, in microseconds since 1970. None if there is none.
    pub fn least_due(&self) -> Option<u128>
        ensures { (doc : Doc) (q : Identity) (h : List Entry) (w : ℕ) → ControllerStands doc q.process h self.now → IsUpAs doc q h
            → is_early w result ≡ is_early w (term_time doc q h) }
    {
        self.term.least_due()
    }

    /// The reading from which on a tick of its term may delete a pod that is due; none if none may any more.
    pub fn delete_wake(&self) -> Option<Local>
        ensures { (doc : Doc) (k : ℕ) (q : Identity) (h : List Entry) → ControllerStands doc q.process h self.now → IsUpAs doc q h
            → AreInBeats h → AreUpTo k h → is_early (local doc q.process k) (reading_of result) ≡ is_early (local doc q.process k) (room_at doc q h) }
    {
        self.term.delete_wake()
    }
}
