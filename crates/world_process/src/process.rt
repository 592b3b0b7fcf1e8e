// A process of the world, and what the world asks of each.
ghost use Rattle.std.specs.Prelude.{◌≡◌, ◌↔◌, ◌+◌, ◌<◌, ◌≤◌, ◌^◌, not, ℕ, true, false, List, Option, Some, IfSome, OnOk, is_some, option_map};
ghost use Rattle.kube_base.specs.declared.numbers.Local.{Local};
ghost use Rattle.kube_base.specs.declared.numbers.ProcId.{ProcId};
ghost use Rattle.kube_objects.specs.declared.deed.Actor.TheVariants as actor;
ghost use Rattle.kube_objects.specs.declared.script.What.TheVariants as what;
ghost use Rattle.kube_objects.specs.Clocks.{local};
ghost use Rattle.kube_objects.specs.Document.{Doc, is_controller, restart_delay};
ghost use Rattle.kube_objects.specs.Elector.{leads};
ghost use Rattle.kube_objects.specs.Entry.{Entry, Identity};
ghost use Rattle.kube_objects.specs.Identities.{identity};
ghost use Rattle.kube_objects.specs.InForce.{posted_status, watches};
ghost use Rattle.kube_objects.specs.Newest.{when};
ghost use Rattle.kube_objects.specs.Pauses.{is_paused as is_paused_at, resume as resume_of};
ghost use Rattle.kube_objects.specs.Process.{alive, starts};
ghost use Rattle.kube_objects.specs.Wire.{Back, loses_requests};
ghost use Rattle.history.specs.Steps.{happens, start};
ghost use Rattle.agenda_laws.specs.Ticking.{is_due_at_once, room_at, sync_at, synced_reading, term_time};
ghost use Rattle.controller_core.specs.Working.{kept};
ghost use Rattle.agenda_laws.specs.Times.{is_early};
ghost use Rattle.leader_elector.specs.Stands.{acting_identity};
ghost use Rattle.object_store.specs.Stands.{StoreStands};
ghost use Rattle.pause_times.specs.Owned.{PausesStand};
ghost use Rattle.tick_laws.specs.Room.{AreInBeats, AreUpTo};
ghost use Rattle.world_process.specs.Beats.{IsBeatOf, beat_in, own_reading, reading_of};
ghost use Rattle.world_process.specs.Moves.{own_turn};
ghost use Rattle.world_process.specs.OwnTerm.{CanTick, IsUpAs};
ghost use Rattle.world_process.specs.Plain.{IsPlain, IsFew};
ghost use Rattle.world_process.specs.Processes.{IsKept, IsTimed, ProcessStands, SameProcess, Crashed, Begun, StoppedAs, Turned, Ticked, Replied};
ghost use Rattle.world_process.specs.Processes.{leads_now, me_of, incarnation_of, clock_of, waking_of, is_up_first_as};

use crate::controller::Controller;
use crate::kubelet::Kubelet;
use crate::moves::{Received, Stopped, Turn, stop_with};
use crate::waking::Waking;
use kube_base::{Beat, Local, NoMemory, ProcId};
use kube_objects::{Actor, Deeds, ReadyStatus, Reply};
use leader_elector::Acting;
use object_store::Store;
use pause_times::Pauses;
use skew_clock::Clock;
use zone_state::Policies;

/// A process of the world.
#[derive(Drop)]
pub enum Process {
    Controller(Controller),
    Kubelet(Kubelet),
}

impl Process {
    /// Its place among the processes of the document.
    pub fn me(&self) -> ProcId
        ensures { result ≡ me_of self.now }
    {
        match self {
            Process::Controller(controller) => controller.me,
            Process::Kubelet(kubelet) => kubelet.me,
        }
    }

    /// How often it was started.
    pub fn incarnation(&self) -> u32
        ensures { result ≡ incarnation_of self.now }
    {
        match self {
            Process::Controller(controller) => controller.incarnation,
            Process::Kubelet(kubelet) => kubelet.incarnation,
        }
    }

    /// Whether it is up.
    pub fn is_up(&self) -> bool
        ensures { (doc : Doc) (p : ℕ) (h : List Entry) → ProcessStands doc p h self.now → alive p h ≡ when result (incarnation_of self.now) }
    {
        match self {
            Process::Controller(controller) => controller.is_up(),
            Process::Kubelet(kubelet) => kubelet.rounds.is_some(),
        }
    }

    /// Whether it is paused at a beat.
    pub fn is_paused(&self, beat: Beat) -> bool
        ensures { (doc : Doc) (p : ℕ) (h : List Entry) → ProcessStands doc p h self.now → result ≡ is_paused_at doc p beat.0 }
    {
        self.pauses().is_paused(beat)
    }

    /// The first beat from this one on at which it isn't paused.
    pub fn resume(&self, beat: Beat) -> Beat
        ensures { (doc : Doc) (p : ℕ) (h : List Entry) → ProcessStands doc p h self.now → result.0 ≡ resume_of doc p beat.0 }
    {
        self.pauses().resume(beat)
    }

    // Its pauses.
    fn pauses(&self) -> &Pauses
        ensures { (doc : Doc) (p : ℕ) (h : List Entry) → ProcessStands doc p h self.now → PausesStand doc p result.now }
    {
        match self {
            Process::Controller(controller) => &controller.pauses,
            Process::Kubelet(kubelet) => &kubelet.pauses,
        }
    }

    /// Itself, in its incarnation.
    pub fn actor(&self) -> Actor
        ensures { result ≡ actor.Proc (me_of self.now) (incarnation_of self.now) }
    {
        Actor::Proc(self.me(), self.incarnation())
    }

    /// Whether it starts in beat 0.
    pub fn is_up_first(&self) -> bool
        ensures { result ≡ is_up_first_as self.now }
    {
        match self {
            Process::Controller(controller) => controller.up_first,
            Process::Kubelet(kubelet) => kubelet.up_first,
        }
    }

    /// Starts in the next incarnation.
    pub fn start(&mut self, beat: Beat)
        requires { beat.0 ≤ (clock_of self.old).end }
        ensures same { SameProcess self.old self.new }
        ensures waking { waking_of self.new ≡ waking_of self.old }
        ensures stands { (doc : Doc) (n k step p : ℕ) (h : List Entry) → ProcessStands doc p h self.old → beat.0 ≡ k → IsPlain n h
            → starts p h + 1 < 2 ^ 32
            → ProcessStands doc p (start k step p h) self.new }
    {
        match self {
            Process::Controller(controller) => controller.start(beat),
            Process::Kubelet(kubelet) => kubelet.start(beat),
        }
    }

    /// Goes down if it is up. Tells whether it was up.
    pub fn crash(&mut self) -> bool
        ensures same { SameProcess self.old self.new }
        ensures waking { waking_of self.new ≡ waking_of self.old }
        ensures stands { (doc : Doc) (k : ℕ) (id : ProcId) (h : List Entry) → ProcessStands doc id.0 h self.old
            → Crashed doc k id h self.new result }
    {
        match self {
            Process::Controller(controller) => controller.crash(),
            Process::Kubelet(kubelet) => kubelet.crash(),
        }
    }

    /// Starts if it is down. Tells whether it was down.
    pub fn start_if_down(&mut self, beat: Beat) -> bool
        requires { beat.0 ≤ (clock_of self.old).end }
        ensures same { SameProcess self.old self.new }
        ensures waking { waking_of self.new ≡ waking_of self.old }
        ensures stands { (doc : Doc) (n k : ℕ) (id : ProcId) (h : List Entry) → ProcessStands doc id.0 h self.old → beat.0 ≡ k
            → IsPlain n h
            → IsFew (happens doc k (what.Start id) h) → Begun doc k id h self.new result }
    {
        match self {
            Process::Controller(controller) => controller.start_if_down(beat),
            Process::Kubelet(kubelet) => kubelet.start_if_down(beat),
        }
    }

    /// A controller goes down in order if it is up and not paused. No lawful document stops a kubelet.
    pub fn stop(&mut self, beat: Beat) -> Stopped
        requires { beat.0 ≤ (clock_of self.old).end }
        ensures same { SameProcess self.old self.new }
        ensures waking { waking_of self.new ≡ waking_of self.old }
        ensures stands { (doc : Doc) (k : ℕ) (id : ProcId) (h : List Entry) → ProcessStands doc id.0 h self.old
            → is_controller doc id.0 ≡ true
            → beat.0 ≡ k → IsFew h → StoppedAs doc k id h self.new result }
    {
        match self {
            Process::Controller(controller) => controller.stop(beat),
            Process::Kubelet(_) => stop_with(false, None),
        }
    }

    /// A controller's turn but for its tick: it may start again, end, or ask a request. The delay of a restart is in units
    /// of 10^-12 s. A kubelet's call may expire, and it may send a request; its messages carry this status.
    pub fn turn(&mut self, beat: Beat, delay: u64, status: ReadyStatus) -> Turn
        requires within { beat.0 ≤ (clock_of self.old).end }
        requires delay { delay ≤ 86400000000000000 }
        ensures same { SameProcess self.old self.new }
        ensures waking { waking_of self.new ≡ waking_of self.old }
        ensures stands { (doc : Doc) (n k p : ℕ) (h : List Entry) → ProcessStands doc p h self.old → beat.0 ≡ k
            → delay ≡ restart_delay doc → status ≡ posted_status doc p h → IsPlain n h → IsFew (own_turn doc k p h)
            → Turned doc k p h self.new result }
    {
        match self {
            Process::Controller(controller) => controller.turn(beat, delay),
            Process::Kubelet(kubelet) => kubelet.turn(beat, status),
        }
    }

    /// A controller's tick, if it acts as the leader: in a term that isn't over, and not in a pause. It is told whether its watch
    /// is on and whether its requests pass. What is printed of the tick is added to the deeds. A kubelet has none.
    pub fn tick(
        &mut self,
        beat: Beat,
        watch: bool,
        passes: bool,
        store: &mut Store,
        policies: &Policies,
        deeds: &mut Deeds,
    ) -> Result<(), NoMemory>
        requires { beat.0 ≤ (clock_of self.old).end }
        ensures same { SameProcess self.old self.new }
        ensures waking { waking_of self.new ≡ waking_of self.old }
        ensures stands { (doc : Doc) (k p : ℕ) (h : List Entry) → ProcessStands doc p h self.old → StoreStands h store.old → beat.0 ≡ k
            → watch ≡ watches doc p h → passes ≡ not (loses_requests p h) → (is_controller doc p ≡ true → CanTick doc k p h)
            → OnOk result (Ticked doc k p h self.new store.new deeds.old deeds.new) }
    {
        match self {
            Process::Controller(controller) => {
                controller.tick(beat, watch, passes, store, policies, deeds)
            }
            Process::Kubelet(_) => Ok(()),
        }
    }

    /// Whether a tick of a controller's term would have a sync, an untaint or a swap now, whatever the time. A kubelet has no term.
    pub fn at_once(&self, store: &Store, watch: bool) -> bool
        ensures { (doc : Doc) (q : Identity) (h : List Entry) → ProcessStands doc q.process h self.now → StoreStands h store.now
            → watch ≡ watches doc q.process h → IsUpAs doc q h → result ≡ is_due_at_once doc q h }
    {
        match self {
            Process::Controller(controller) => controller.at_once(store, watch),
            Process::Kubelet(_) => false,
        }
    }

    /// The reading from which on a tick of a controller's term has a sync, if it leads, one is due and the term takes time to settle.
    /// None if there is none.
    pub fn sync_wake(&self, store: &Store, watch: bool) -> Option<Local>
        ensures { (doc : Doc) (q : Identity) (h : List Entry) → ProcessStands doc q.process h self.now → StoreStands h store.now
            → watch ≡ watches doc q.process h → IsUpAs doc q h → leads q h ≡ true → reading_of result ≡ sync_at doc q h }
    {
        match self {
            Process::Controller(controller) => controller.sync_wake(store, watch),
            Process::Kubelet(_) => None,
        }
    }

    /// The least reading at which a tick of a controller's term has a pass, or a queued taint of those who wait now. None if there
    /// is none.
    pub fn term_wake(&self) -> Option<Local>
        ensures { (doc : Doc) (q : Identity) (h : List Entry) → ProcessStands doc q.process h self.now → IsUpAs doc q h
            → reading_of result ≡ option_map kept (synced_reading doc q h) }
    {
        match self {
            Process::Controller(controller) => controller.term_wake(),
            Process::Kubelet(_) => None,
        }
    }

    /// The least due of the pods that a controller's term sees, the stale ones aside, in microseconds since 1970. None if there is none.
    pub fn least_due(&self) -> Option<u128>
        ensures { (doc : Doc) (q : Identity) (h : List Entry) (w : ℕ) → ProcessStands doc q.process h self.now → IsUpAs doc q h
            → is_early w result ≡ is_early w (term_time doc q h) }
    {
        match self {
            Process::Controller(controller) => controller.least_due(),
            Process::Kubelet(_) => None,
        }
    }

    /// The reading from which on a tick of a controller's term may delete a pod that is due. None if none may any more.
    pub fn delete_wake(&self) -> Option<Local>
        ensures { (doc : Doc) (k : ℕ) (q : Identity) (h : List Entry) → ProcessStands doc q.process h self.now → IsUpAs doc q h
            → AreInBeats h → AreUpTo k h
            → is_early (local doc q.process k) (reading_of result) ≡ is_early (local doc q.process k) (room_at doc q h) }
    {
        match self {
            Process::Controller(controller) => controller.delete_wake(),
            Process::Kubelet(_) => None,
        }
    }

    /// Its clock.
    pub fn clock(&self) -> &Clock
        ensures { result.now ≡ clock_of self.now }
    {
        match self {
            Process::Controller(controller) => &controller.clock,
            Process::Kubelet(kubelet) => &kubelet.clock,
        }
    }

    /// The least reading at which its turn, its tick aside, adds an entry to the history. None if there is none.
    pub fn wake(&self) -> Option<Local>
        ensures { (doc : Doc) (p : ℕ) (h : List Entry) → ProcessStands doc p h self.now → reading_of result ≡ own_reading doc p h }
    {
        match self {
            Process::Controller(controller) => controller.wake(),
            Process::Kubelet(kubelet) => kubelet.wake(),
        }
    }

    /// The first beat up to the end at which its clock reads `wake`: its turn, its tick aside, adds an entry to the history exactly
    /// from this beat on. None if there is none.
    pub fn turn_beat(&self) -> Option<Beat>
        ensures first { (doc : Doc) (p : ℕ) (h : List Entry) (at : Option Local) → ProcessStands doc p h self.now
            → reading_of at ≡ own_reading doc p h → IsBeatOf (clock_of self.now) result at }
        ensures woken { (doc : Doc) (k p : ℕ) (h : List Entry) → ProcessStands doc p h self.now → k ≤ (clock_of self.now).end
            → own_turn doc k p h ≡ h ↔ is_early k (beat_in result) ≡ true }
        ensures within { (doc : Doc) (p : ℕ) (h : List Entry) → ProcessStands doc p h self.now
            → IfSome result (λ beat. beat.0 ≤ (clock_of self.now).end) }
    {
        self.waking().beat_of(self.clock(), self.wake())
    }

    /// Finds `turn_beat` and keeps it, so that nobody need read the clock until the process has changed.
    pub fn keep_turn_beat(&mut self)
        ensures same { SameProcess self.old self.new }
        ensures stands { (doc : Doc) (p : ℕ) (h : List Entry) → ProcessStands doc p h self.old → ProcessStands doc p h self.new }
        ensures incarnation { incarnation_of self.new ≡ incarnation_of self.old }
        ensures kept { IsTimed self.old → IsKept self.new }
    {
        let wake = self.wake();
        match self {
            Process::Controller(controller) => controller.waking.keep(&controller.clock, wake),
            Process::Kubelet(kubelet) => kubelet.waking.keep(&kubelet.clock, wake),
        }
    }

    /// The beat that `keep_turn_beat` found last.
    pub fn kept_beat(&self) -> Option<Beat>
        ensures { result ≡ (waking_of self.now).until }
    {
        self.waking().until
    }

    // The beat that it keeps.
    fn waking(&self) -> &Waking
        ensures { result.now ≡ waking_of self.now }
    {
        match self {
            Process::Controller(controller) => &controller.waking,
            Process::Kubelet(kubelet) => &kubelet.waking,
        }
    }

    /// The leadership that it has at a beat, in a term that isn't over or in a release that acts; None if it has none, as a kubelet never
    /// has.
    pub fn leadership(&self, beat: Beat) -> Option<Acting<'_>>
        requires { beat.0 ≤ (clock_of self.now).end }
        ensures leads { (doc : Doc) (k p : ℕ) (h : List Entry) → ProcessStands doc p h self.now → beat.0 ≡ k
            → is_some result ≡ leads_now doc k p h }
        ensures identity { (doc : Doc) (p : ℕ) (h : List Entry) → ProcessStands doc p h self.now
            → IfSome result (λ a. acting_identity a ≡ identity p (incarnation_of self.now)) }
        ensures up { (doc : Doc) (p : ℕ) (h : List Entry) → ProcessStands doc p h self.now
            → IfSome result (λ a. alive p h ≡ Some (incarnation_of self.now)) }
    {
        match self {
            Process::Controller(controller) => controller.leadership(beat),
            Process::Kubelet(_) => None,
        }
    }

    /// A reply that comes to an incarnation of the process. The delay of a restart is in units of 10^-12 s.
    pub fn receive(
        &mut self,
        incarnation: u32,
        number: u64,
        reply: &Reply,
        beat: Beat,
        delay: u64,
    ) -> Received
        requires within { beat.0 ≤ (clock_of self.old).end }
        requires delay { delay ≤ 86400000000000000 }
        ensures same { SameProcess self.old self.new }
        ensures waking { waking_of self.new ≡ waking_of self.old }
        ensures stands { (doc : Doc) (k p : ℕ) (b : Back) (h : List Entry) → ProcessStands doc p h self.old
            → beat.0 ≡ k → b.who ≡ identity p incarnation → b.call.number ≡ number → b.reply ≡ reply.now
            → delay ≡ restart_delay doc → IsFew h
            → Replied doc k p b h self.new result }
    {
        match self {
            Process::Controller(controller) => {
                controller.receive(incarnation, number, reply, beat, delay)
            }
            Process::Kubelet(kubelet) => kubelet.receive(incarnation, number, reply, beat),
        }
    }
}
