// Each of the script's events.
ghost use Rattle.std.specs.Prelude.{◌≡◌, ◌+◌, ◌*◌, OnOk};
ghost use Rattle.kube_objects.specs.declared.script.What.TheVariants as What;
ghost use Rattle.kube_objects.specs.Kinds.{IsOfKind};
ghost use Rattle.world_core.specs.Worlds.{IsRunning, Keeps, Happens};

use crate::printing::{crash_act, pause_act, remove_act, start_act, stop_act, tell};
use crate::world::World;
use crate::world::messages::send_asked;
use crate::world::turns::note;
use kube_base::{NoMemory, ProcId, Wall};
use kube_objects::{Act, Actor, Deeds, Key, Object};

impl World {
    // A process that is up crashes.
    pub(super) fn crash(&mut self, who: ProcId, deeds: &mut Deeds) -> Result<(), NoMemory>
        requires running { IsRunning self.old }
        ensures kept { OnOk result (Keeps self.old self.new) }
        ensures stands { OnOk result (Happens self.old deeds.old self.new deeds.new (What.Crash who)) }
    {
        let i = who.0 as usize;
        if i >= self.processes.len() {
            return Ok(());
        }
        let process = &mut self.processes[i];
        let crashed = process.crash();
        note(process, i, &mut self.turn_beats);
        let actor = process.actor();
        tell(deeds, self.beat, actor, crash_act(crashed))
    }

    // A process that is down starts.
    pub(super) fn start(&mut self, who: ProcId, deeds: &mut Deeds) -> Result<(), NoMemory>
        requires running { IsRunning self.old }
        ensures kept { OnOk result (Keeps self.old self.new) }
        ensures stands { OnOk result (Happens self.old deeds.old self.new deeds.new (What.Start who)) }
    {
        let i = who.0 as usize;
        if i >= self.processes.len() {
            return Ok(());
        }
        let process = &mut self.processes[i];
        let started = process.start_if_down(self.beat);
        note(process, i, &mut self.turn_beats);
        let actor = process.actor();
        tell(deeds, self.beat, actor, start_act(started))
    }

    // A stopped leader's release is sent at once, or its first call. A controller that is paused goes on.
    pub(super) fn stop(&mut self, who: ProcId, deeds: &mut Deeds) -> Result<(), NoMemory>
        requires running { IsRunning self.old }
        ensures kept { OnOk result (Keeps self.old self.new) }
        ensures stands { OnOk result (Happens self.old deeds.old self.new deeds.new (What.Stop who)) }
    {
        let i = who.0 as usize;
        if i >= self.processes.len() {
            return Ok(());
        }
        let process = &mut self.processes[i];
        let stopped = process.stop(self.beat);
        note(process, i, &mut self.turn_beats);
        let actor = process.actor();
        let who = process.me();
        let incarnation = process.incarnation();
        tell(deeds, self.beat, actor, stop_act(stopped.stopped))?;
        send_asked(
            &mut self.wire,
            &self.stalls,
            who,
            incarnation,
            stopped.ask,
            self.beat,
        )
    }

    // A pause is told of a process that is up. From when to when each is paused is known from the start.
    pub(super) fn pause(&self, who: ProcId, beats: u32, deeds: &mut Deeds) -> Result<(), NoMemory>
        ensures { OnOk result (Happens self.now deeds.old self.now deeds.new (What.Pause who beats)) }
    {
        let i = who.0 as usize;
        if i >= self.processes.len() {
            return Ok(());
        }
        let process = &self.processes[i];
        let up = process.is_up();
        tell(deeds, self.beat, process.actor(), pause_act(up, beats))
    }

    // A stall of the store is told. From when to when it stands still is known from the start.
    pub(super) fn stall(&self, beats: u32, deeds: &mut Deeds) -> Result<(), NoMemory>
        ensures { OnOk result (Happens self.now deeds.old self.now deeds.new (What.Stall beats)) }
    {
        tell(deeds, self.beat, Actor::Script, Some(Act::Stall(beats)))
    }

    // An object is stored under its key.
    pub(super) fn put(
        &mut self,
        key: Key,
        object: Object,
        deeds: &mut Deeds,
    ) -> Result<(), NoMemory>
        requires running { IsRunning self.old }
        requires kind { IsOfKind key object }
        ensures kept { OnOk result (Keeps self.old self.new) }
        ensures stands { OnOk result (Happens self.old deeds.old self.new deeds.new (What.Put key object)) }
    {
        let now = self.wall();
        let version = self.store.put(key, object, now)?;
        let act = Some(Act::Put(key, version));
        tell(deeds, self.beat, Actor::Script, act)
    }

    // What is stored under a key is removed, if there is something.
    pub(super) fn remove(&mut self, key: Key, deeds: &mut Deeds) -> Result<(), NoMemory>
        requires running { IsRunning self.old }
        ensures kept { OnOk result (Keeps self.old self.new) }
        ensures stands { OnOk result (Happens self.old deeds.old self.new deeds.new (What.Remove key)) }
    {
        let version = self.store.remove(key)?;
        tell(deeds, self.beat, Actor::Script, remove_act(key, version))
    }

    // The store's time of day.
    fn wall(&self) -> Wall
        requires running { IsRunning self.now }
        ensures { result.0 ≡ self.now.epoch.0 + self.now.beat.0 * self.now.micros }
    {
        Wall(self.epoch.0 + u64::from(self.beat.0) * u64::from(self.micros))
    }
}
