// The processes' turns, and the ticks of the controllers.
ghost use Rattle.std.specs.Prelude.{◌≡◌, ◌==◌, ◌<◌, ℕ, List, length, true, OnOk, vec_len, if◌then◌else◌};
ghost use Rattle.beat_tree.specs.Leaves.{leaf, room};
ghost use Rattle.kube_objects.specs.declared.deed.Deed.{Deed};
ghost use Rattle.kube_objects.specs.Document.{Doc, is_controller, processes};
ghost use Rattle.kube_objects.specs.Entry.{Entry};
ghost use Rattle.kube_objects.specs.Wire.{Sent, Back};
ghost use Rattle.history.specs.Steps.{turns};
ghost use Rattle.beat_laws.specs.Unticked.{IsUnticked, IsUntickedFrom};
ghost use Rattle.world_process.specs.Processes.{IsKept, IsTimed, ProcessStands, SameProcess, incarnation_of, waking_of};
ghost use Rattle.world_core.specs.Waits.{awake_turn};
ghost use Rattle.world_process.specs.Moves.{own_ticks};
ghost use Rattle.world_process.specs.Plain.{IsFew};
ghost use Rattle.world_core.specs.Worlds.{Adds, AreInTime, IsRunning, Keeps, MidBeat};

use crate::printing::{end_act, start_act, tell};
use crate::world::World;
use crate::world::messages::send_asked;
use beat_tree::BeatTree;
use kube_base::{Beat, NoMemory};
use kube_objects::Deeds;
use world_process::Process;
use zone_state::Policies;

impl World {
    // Each process has its turn, in order.
    #[inline(never)]
    pub(super) fn turns(&mut self, policies: &Policies, deeds: &mut Deeds) -> Result<(), NoMemory>
        requires running { IsRunning self.old }
        ensures kept { OnOk result (Keeps self.old self.new) }
        ensures stands { (doc : Doc) (k : ℕ) (before : List Deed) (arriving : List Sent) (coming : List Back) (h : List Entry)
            → MidBeat doc k before arriving coming h self.old deeds.old → IsUnticked k h → AreInTime k h → IsFew (turns doc k (processes doc) h)
            → OnOk result (MidBeat doc k before arriving coming (turns doc k (processes doc) h) self.new deeds.new) }
    {
        for i in 0..self.controllers {
            self.turn(i, deeds)?;
            self.tick(i, policies, deeds)?;
        }
        self.kubelet_turns(deeds)
    }

    // The kubelets whose beat has come have their turns, in order; the others' turns would add nothing.
    fn kubelet_turns(&mut self, deeds: &mut Deeds) -> Result<(), NoMemory>
        requires running { IsRunning self.old }
        ensures kept { OnOk result (Keeps self.old self.new) }
        ensures stands { (doc : Doc) (k : ℕ) (before : List Deed) (arriving : List Sent) (coming : List Back) (h : List Entry)
            → MidBeat doc k before arriving coming (turns doc k (length doc.controllers) h) self.old deeds.old
            → IsFew (turns doc k (processes doc) h)
            → OnOk result (MidBeat doc k before arriving coming (turns doc k (processes doc) h) self.new deeds.new) }
    {
        let after = Some(Beat(self.beat.0 + 1));
        let mut next = self.controllers;
        'kubelets: while let Some(i) = self.turn_beats.first_before(next, after) {
            self.take_turn(i, deeds)?;
            next = i + 1;
        }
        Ok(())
    }

    // A turn but for its tick, where it isn't paused.
    fn turn(&mut self, i: usize, deeds: &mut Deeds) -> Result<(), NoMemory>
        requires index { i < vec_len self.old.processes }
        requires running { IsRunning self.old }
        ensures kept { OnOk result (Keeps self.old self.new) }
        ensures stands { Adds self.old deeds.old result self.new deeds.new (λ doc k h. awake_turn doc k i h) }
    {
        match self.processes[i].kept_beat() {
            Some(wakes) if wakes.0 <= self.beat.0 => self.take_turn(i, deeds),
            _ => Ok(()),
        }
    }

    // A turn of a process that does something where it isn't paused, but for its tick.
    #[inline(never)]
    fn take_turn(&mut self, i: usize, deeds: &mut Deeds) -> Result<(), NoMemory>
        requires index { i < vec_len self.old.processes }
        requires running { IsRunning self.old }
        ensures kept { OnOk result (Keeps self.old self.new) }
        ensures stands { Adds self.old deeds.old result self.new deeds.new (λ doc k h. awake_turn doc k i h) }
    {
        if self.processes[i].is_paused(self.beat) {
            return Ok(());
        }
        let process = &mut self.processes[i];
        let status = self.in_force.status(process.me());
        let turn = process.turn(self.beat, self.restart, status);
        note(process, i, &mut self.turn_beats);
        let actor = process.actor();
        let who = process.me();
        let incarnation = process.incarnation();
        tell(deeds, self.beat, actor, start_act(turn.started))?;
        tell(deeds, self.beat, actor, end_act(turn.ended))?;
        send_asked(
            &mut self.wire,
            &self.stalls,
            who,
            incarnation,
            turn.ask,
            self.beat,
        )
    }

    // The tick of a controller that acts as the leader. There is none while the store stands still.
    fn tick(&mut self, i: usize, policies: &Policies, deeds: &mut Deeds) -> Result<(), NoMemory>
        requires index { i < vec_len self.old.processes }
        requires running { IsRunning self.old }
        ensures kept { OnOk result (Keeps self.old self.new) }
        ensures stands { (doc : Doc) (k : ℕ) (before : List Deed) (arriving : List Sent) (coming : List Back) (h : List Entry)
            → MidBeat doc k before arriving coming h self.old deeds.old → (is_controller doc i ≡ true → IsUntickedFrom k i h)
            → AreInTime k h → IsFew (own_ticks doc k i h)
            → OnOk result (MidBeat doc k before arriving coming (own_ticks doc k i h) self.new deeds.new) }
    {
        if self.processes[i].leadership(self.beat).is_none() {
            return Ok(());
        }
        if self.stalls.is_stalled(self.beat) {
            return Ok(());
        }
        let who = self.processes[i].me();
        let watch = self.in_force.watch(who);
        let passes = self.wire.passes(who);
        let process = &mut self.processes[i];
        process.tick(self.beat, watch, passes, &mut self.store, policies, deeds)?;
        note(process, i, &mut self.turn_beats);
        Ok(())
    }
}

// A process that has changed keeps the beat of its next turn, and its leaf has it.
pub(super) fn note(process: &mut Process, i: usize, turn_beats: &mut BeatTree)
    requires { i < room turn_beats.old }
    ensures same { SameProcess process.old process.new }
    ensures incarnation { incarnation_of process.new ≡ incarnation_of process.old }
    ensures stands { (doc : Doc) (p : ℕ) (h : List Entry) → ProcessStands doc p h process.old → ProcessStands doc p h process.new }
    ensures kept { IsTimed process.old → IsKept process.new }
    ensures room { room turn_beats.new ≡ room turn_beats.old }
    ensures leaves { (j : ℕ) → leaf turn_beats.new j ≡ (if i == j then (waking_of process.new).until else leaf turn_beats.old j) }
{
    process.keep_turn_beat();
    turn_beats.set(i, process.kept_beat());
}
