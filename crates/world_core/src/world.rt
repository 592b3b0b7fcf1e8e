// The world of a document, which does one beat at a time.
ghost use Rattle.std.specs.Prelude.{◌≡◌, ◌+◌, ◌<◌, ◌≤◌, ◌++◌, ◌↔◌, ℕ, List, length, IfOk, OnOk, IsTrue};
ghost use Rattle.std.specs.List.{AllByRecursion};
ghost use Rattle.std.specs.List.Sorted.{IsStrictlySortedBy};
ghost use Rattle.std.specs.Map.{keys_of, lookup};
ghost use Rattle.kube_objects.specs.declared.key.Key.{Key};
ghost use Rattle.kube_objects.specs.Document.{Doc, end_beat, processes};
ghost use Rattle.kube_objects.specs.Entry.{Entry};
ghost use Rattle.kube_objects.specs.Keys.{key_cmp, key_eq};
ghost use Rattle.kube_objects.specs.Stored.{stored};
ghost use Rattle.kube_objects.specs.Writable.{IsWritable};
ghost use Rattle.object_store.specs.StoreAnswers.{object_of};
ghost use Rattle.history.specs.History.{history, beat};
ghost use Rattle.history.specs.Printed.{printed};
ghost use Rattle.kube_base.specs.Steps.{counted};
ghost use Rattle.world_process.specs.Clocked.{ClockStands};
ghost use Rattle.world_process.specs.Plain.{IsFew};
ghost use Rattle.world_core.specs.Worlds.{AreQuiet, AreWritable, IsReady, WasRead, WorldStands, at_of, count_of, end_of, names_of};

mod events;
mod making;
mod messages;
mod script;
mod turns;
mod waiting;

use beat_tree::BeatTree;
use kube_base::{Beat, Names, NoMemory, ProcId, Steps, Wall};
use kube_objects::{Deeds, Events, Items};
use object_store::Store;
use pause_times::Stalls;
use skew_clock::Clock;
use std::alloc::Global;
use wire_calls::Wire;
use world_process::{InForce, Process};
use zone_state::Policies;

/// Processes, the store and the wire between them, before a beat. The events before the place have happened.
#[derive(Drop)]
pub struct World {
    alloc: Global,
    beat: Beat,
    end: Beat,
    restart: u64,
    epoch: Wall,
    micros: u32,
    store: Store,
    wire: Wire,
    processes: Vec<Process>,
    controllers: usize,
    turn_beats: BeatTree,
    in_force: InForce,
    place: usize,
    events: Events,
    names: Names,
    stalls: Stalls,
}

impl World {
    /// The document's names.
    pub fn names(&self) -> &Names
        ensures { result.now ≡ names_of self.now }
    {
        &self.names
    }

    /// The objects that are stored, each with its key, in the order of keys. Each is a copy.
    pub fn objects(&self) -> Result<Items, NoMemory>
        ensures ascend { IfOk result (λ items. IsStrictlySortedBy key_cmp (keys_of items)) }
        ensures stored { (doc : Doc) (k : ℕ) (h : List Entry) (key : Key) → WorldStands doc k h self.now
            → IfOk result (λ items. lookup (key_eq key) items ≡ object_of (stored key h)) }
        ensures writable { (doc : Doc) (k : ℕ) → WasRead doc self.now → WorldStands doc k (history doc k) self.now → k ≤ end_beat doc + 1
            → IfOk result (AreWritable (names_of self.now) (length doc.controllers)) }
    {
        // Reading the length lets the checker use what every list of names keeps.
        let _held = self.names.len();
        self.store.objects()
    }

    /// The next beat to be done.
    pub fn at(&self) -> Beat
        ensures { result.0 ≡ at_of self.now }
    {
        self.beat
    }

    /// Whether the end is passed.
    pub fn finished(&self) -> bool
        ensures { IsTrue result ↔ (end_of self.now < at_of self.now) }
    {
        self.beat.0 > self.end.0
    }

    /// Does one beat, and returns its printed entries. It counts one step.
    pub fn beat<L>(&mut self, policies: &Policies, steps: &mut Steps<L>) -> Result<Deeds, NoMemory>
        requires ready { IsReady self.old }
        requires within { at_of self.old ≤ end_of self.old }
        ensures kept { OnOk result (IsReady self.new × (at_of self.new ≡ at_of self.old + 1) × (end_of self.new ≡ end_of self.old)
            × (names_of self.new ≡ names_of self.old)) }
        ensures stands { (doc : Doc) (k : ℕ) (h : List Entry) → IsFew (beat doc h k) → WorldStands doc k h self.old
            → IfOk result (λ deeds. WorldStands doc (k + 1) (beat doc h k) self.new × (printed h ++ deeds ≡ printed (beat doc h k))) }
        ensures writable { (doc : Doc) (k : ℕ) → WasRead doc self.old → WorldStands doc k (history doc k) self.old → k ≤ end_beat doc
            → IfOk result (AllByRecursion (IsWritable (names_of self.old) (processes doc))) }
        ensures counted { steps.new ≡ counted steps.old 1 }
    {
        steps.tick();
        // Reading the length lets the checker use what every list of names keeps.
        let _held = self.names.len();
        let mut deeds = Deeds::new(self.alloc);
        self.first_starts(&mut deeds)?;
        self.script(&mut deeds)?;
        self.arrivals(&mut deeds)?;
        self.deliveries(&mut deeds)?;
        self.turns(policies, &mut deeds)?;
        self.beat = Beat(self.beat.0 + 1);
        Ok(deeds)
    }

    /// Goes on to a later beat, at most to the one after the end, if no entry stands at the beats between.
    pub fn skip_to(&mut self, beat: Beat)
        requires ready { IsReady self.old }
        requires ahead { (at_of self.old ≤ beat.0) × (beat.0 ≤ end_of self.old + 1) }
        ensures kept { IsReady self.new × (at_of self.new ≡ beat.0) × (end_of self.new ≡ end_of self.old)
            × (names_of self.new ≡ names_of self.old) }
        ensures stands { (doc : Doc) (k : ℕ) (h : List Entry) → WorldStands doc k h self.old → AreQuiet doc k beat.0 h
            → WorldStands doc beat.0 h self.new }
    {
        self.beat = beat;
    }

    /// How many processes there are.
    pub fn processes(&self) -> u32
        requires { IsReady self.now }
        ensures count { result ≡ count_of self.now }
        ensures stands { (doc : Doc) (k : ℕ) (h : List Entry) → WorldStands doc k h self.now → result ≡ processes doc }
    {
        self.processes.len() as u32
    }

    /// How many of the processes are controllers. They come first.
    pub fn controllers(&self) -> u32
        requires { IsReady self.now }
        ensures few { result ≤ count_of self.now }
        ensures stands { (doc : Doc) (k : ℕ) (h : List Entry) → WorldStands doc k h self.now → result ≡ length doc.controllers }
    {
        self.controllers as u32
    }

    /// A process's clock.
    pub fn clock(&self, who: ProcId) -> &Clock
        requires { who.0 < count_of self.now }
        ensures end { IsReady self.now → result.now.end ≡ end_of self.now }
        ensures stands { (doc : Doc) (k : ℕ) (h : List Entry) → WorldStands doc k h self.now → ClockStands doc who.0 result.now }
    {
        self.processes[who.0 as usize].clock()
    }
}
