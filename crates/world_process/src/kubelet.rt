// A kubelet of the world: its clock, and its rounds while it is up.
ghost use Rattle.std.specs.Prelude.{◌≡◌, ◌+◌, ◌<◌, ◌≤◌, ◌^◌, ℕ, false, List, [], Option, IfOk};
ghost use Rattle.kube_base.specs.declared.numbers.Local.{Local};
ghost use Rattle.kube_base.specs.declared.numbers.ProcId.{ProcId};
ghost use Rattle.kube_objects.specs.declared.script.What.TheVariants as what;
ghost use Rattle.kube_objects.specs.Document.{Doc, is_controller};
ghost use Rattle.kube_objects.specs.Entry.{Entry};
ghost use Rattle.kube_objects.specs.Identities.{identity};
ghost use Rattle.kube_objects.specs.InForce.{posted_status};
ghost use Rattle.kube_objects.specs.Process.{starts};
ghost use Rattle.kube_objects.specs.Wire.{Back};
ghost use Rattle.history.specs.Sound.{AreApart};
ghost use Rattle.history.specs.Steps.{happens, start, kubelet_turn};
ghost use Rattle.agenda_laws.specs.Times.{kubelet_reading};
ghost use Rattle.script_reader.specs.Lawful.{AreLawful, IsLawful};
ghost use Rattle.world_process.specs.Beats.{IsBeatOf, reading_of};
ghost use Rattle.world_process.specs.Clocked.{AreEventsFrom, IsMadeOf};
ghost use Rattle.world_process.specs.Kubelets.{KubeletStands, SameKubelet, Crashed, Begun, Turned, Replied};
ghost use Rattle.world_process.specs.Plain.{IsPlain, IsFew};

use crate::clocks::times_for;
use crate::moves::{Received, Turn, effect_with, stays, turn_with};
use crate::round_timing::RoundTiming;
use crate::waking::Waking;
use controller_core::picoseconds;
use kube_base::{Beat, Local, NoMemory, ProcId};
use kube_objects::{Event, Proc, ReadyStatus, Reply, Settings};
use pause_times::Pauses;
use skew_clock::Clock;
use std::alloc::Global;

/// A kubelet with its clock. The incarnation counts its starts; if it is up its rounds are those of one incarnation.
#[derive(Drop)]
pub struct Kubelet {
    pub me: ProcId,
    pub incarnation: u32,
    /// The number of its node's name.
    pub node: u32,
    pub timing: RoundTiming,
    pub clock: Clock,
    pub pauses: Pauses,
    pub up_first: bool,
    pub rounds: Option<kubelet_node::Kubelet>,
    pub waking: Waking,
}

impl Kubelet {
    /// A kubelet that has never been up.
    pub fn new(
        alloc: Global,
        me: ProcId,
        settings: &Settings,
        process: &Proc,
        events: &[Event],
    ) -> Result<Kubelet, NoMemory>
        requires settings { AreLawful settings.now }
        requires process { IsLawful process.now }
        requires events { AreEventsFrom settings.now.end_beat.0 0 events.now }
        requires apart { AreApart events.now }
        ensures end { IfOk result (λ b. b.clock.end ≡ settings.now.end_beat.0) }
        ensures timed { IfOk result (λ b. IsBeatOf b.clock b.waking.until b.waking.below) }
        ensures stands { (doc : Doc) (p : ℕ) → IsMadeOf doc p me.0 settings.now process.now events.now → is_controller doc p ≡ false
            → IfOk result (KubeletStands doc p []) }
    {
        let timing = RoundTiming {
            lease_seconds: settings.node_lease_duration_seconds,
            timeout: picoseconds(process.timeout_millis),
        };
        let (clock, pauses) = times_for(alloc, me, settings, process, events)?;
        Ok(Kubelet {
            me,
            incarnation: 0,
            node: process.name,
            timing,
            clock,
            pauses,
            up_first: process.up,
            rounds: None,
            waking: Waking::new(),
        })
    }

    /// Starts in the next incarnation.
    pub fn start(&mut self, beat: Beat)
        requires { beat.0 ≤ self.old.clock.end }
        ensures same { SameKubelet self.old self.new }
        ensures stands { (doc : Doc) (n k step p : ℕ) (h : List Entry) → KubeletStands doc p h self.old → beat.0 ≡ k → IsPlain n h
            → starts p h + 1 < 2 ^ 32
            → KubeletStands doc p (start k step p h) self.new }
    {
        let incarnation = self.incarnation.saturating_add(1);
        let now = self.clock.local(beat);
        self.incarnation = incarnation;
        self.rounds = Some(kubelet_node::Kubelet::start(
            self.node,
            incarnation,
            self.timing.lease_seconds,
            self.timing.timeout,
            now,
        ));
    }

    /// Goes down if it is up, and its call is forgotten. Tells whether it was up.
    pub fn crash(&mut self) -> bool
        ensures same { SameKubelet self.old self.new }
        ensures stands { (doc : Doc) (k : ℕ) (id : ProcId) (h : List Entry) → KubeletStands doc id.0 h self.old
            → Crashed doc k id h self.new result }
    {
        let up = self.rounds.is_some();
        self.rounds = None;
        up
    }

    /// Starts if it is down. Tells whether it was down.
    pub fn start_if_down(&mut self, beat: Beat) -> bool
        requires { beat.0 ≤ self.old.clock.end }
        ensures same { SameKubelet self.old self.new }
        ensures stands { (doc : Doc) (n k : ℕ) (id : ProcId) (h : List Entry) → KubeletStands doc id.0 h self.old → beat.0 ≡ k
            → IsPlain n h → IsFew (happens doc k (what.Start id) h)
            → Begun doc k id h self.new result }
    {
        if self.rounds.is_some() {
            return false;
        }
        self.start(beat);
        true
    }

    /// Its turn: a call may expire, and it may send a request. Its messages carry this status.
    pub fn turn(&mut self, beat: Beat, status: ReadyStatus) -> Turn
        requires { beat.0 ≤ self.old.clock.end }
        ensures same { SameKubelet self.old self.new }
        ensures stands { (doc : Doc) (k p : ℕ) (h : List Entry) → KubeletStands doc p h self.old → beat.0 ≡ k
            → status ≡ posted_status doc p h → IsFew (kubelet_turn doc k p h)
            → Turned doc k p h self.new result }
    {
        let now = self.clock.local(beat);
        let wall = self.clock.wall_at(now);
        match &mut self.rounds {
            None => turn_with(None),
            Some(rounds) => turn_with(rounds.on_timer(now, wall, status)),
        }
    }

    /// A reply that comes to an incarnation of the kubelet.
    pub fn receive(&mut self, incarnation: u32, number: u64, reply: &Reply, beat: Beat) -> Received
        requires { beat.0 ≤ self.old.clock.end }
        ensures same { SameKubelet self.old self.new }
        ensures stands { (doc : Doc) (k p : ℕ) (b : Back) (h : List Entry) → KubeletStands doc p h self.old → beat.0 ≡ k
            → b.who ≡ identity p incarnation → b.call.number ≡ number → b.reply ≡ reply.now
            → IsFew h → Replied doc k p b h self.new result }
    {
        if incarnation != self.incarnation {
            return stays();
        }
        let now = self.clock.local(beat);
        let wall = self.clock.wall_at(now);
        match &mut self.rounds {
            None => stays(),
            Some(rounds) => effect_with(rounds.on_reply(number, *reply, now, wall)),
        }
    }

    /// The least reading at which its turn adds an entry to the history. None if there is none.
    pub fn wake(&self) -> Option<Local>
        ensures { (doc : Doc) (p : ℕ) (h : List Entry) → KubeletStands doc p h self.now → reading_of result ≡ kubelet_reading doc p h }
    {
        match &self.rounds {
            None => None,
            Some(rounds) => Some(rounds.wake()),
        }
    }
}
