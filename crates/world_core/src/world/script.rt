// What the script does at a beat: the first starts, and the events, one after the other.
ghost use Rattle.std.specs.Prelude.{◌≡◌, ◌<◌, ℕ, List, IfOk, OnOk, vec_len};
ghost use Rattle.kube_objects.specs.declared.deed.Deed.{Deed};
ghost use Rattle.kube_objects.specs.Document.{Doc, is_up_first};
ghost use Rattle.kube_objects.specs.Entry.{Entry};
ghost use Rattle.kube_objects.specs.Wire.{Sent, Back};
ghost use Rattle.history.specs.Steps.{first_starts, start_first, happen_all};
ghost use Rattle.world_process.specs.Plain.{IsFew};
ghost use Rattle.world_core.specs.Worlds.{IsFit, IsReady, IsRunning, IsPlaced, SameDocument, Keeps, MidBeat, Adds, Happens, Scripted};

use crate::printing::tell;
use crate::world::World;
use crate::world::turns::note;
use kube_base::NoMemory;
use kube_objects::{Act, Deeds, What};

impl World {
    // In beat 0 each process starts that is up at first.
    #[inline(never)]
    pub(super) fn first_starts(&mut self, deeds: &mut Deeds) -> Result<(), NoMemory>
        requires running { IsRunning self.old }
        ensures kept { OnOk result (Keeps self.old self.new) }
        ensures stands { Adds self.old deeds.old result self.new deeds.new (λ doc k h. first_starts doc k h) }
    {
        if self.beat.0 != 0 {
            return Ok(());
        }
        for i in 0..self.processes.len() {
            self.first_start(i, deeds)?;
        }
        Ok(())
    }

    // A process starts that is up at first.
    fn first_start(&mut self, i: usize, deeds: &mut Deeds) -> Result<(), NoMemory>
        requires index { i < vec_len self.old.processes }
        requires running { IsRunning self.old }
        ensures kept { OnOk result (Keeps self.old self.new) }
        ensures stands { (doc : Doc) (before : List Deed) (arriving : List Sent) (coming : List Back) (h : List Entry)
            → MidBeat doc 0 before arriving coming h self.old deeds.old → IsFew (start_first i (is_up_first doc i) h)
            → OnOk result (MidBeat doc 0 before arriving coming (start_first i (is_up_first doc i) h) self.new deeds.new) }
    {
        let process = &mut self.processes[i];
        if !process.is_up_first() {
            return Ok(());
        }
        process.start(self.beat);
        note(process, i, &mut self.turn_beats);
        let actor = process.actor();
        tell(deeds, self.beat, actor, Some(Act::Start))
    }

    // The events of this beat happen, in order.
    #[inline(never)]
    pub(super) fn script(&mut self, deeds: &mut Deeds) -> Result<(), NoMemory>
        requires running { IsRunning self.old }
        ensures kept { OnOk result (IsReady self.new × SameDocument self.old self.new) }
        ensures stands { (doc : Doc) (k : ℕ) (before : List Deed) (arriving : List Sent) (coming : List Back) (h : List Entry)
            → MidBeat doc k before arriving coming h self.old deeds.old → IsPlaced doc k self.old.place
            → IsFew (happen_all doc k doc.events h)
            → OnOk result (Scripted doc k before arriving coming h self.new deeds.new) }
    {
        let all = self.events.as_slice().len();
        'script: while self.place < all {
            let event = &self.events.as_slice()[self.place];
            if event.beat.0 != self.beat.0 {
                return Ok(());
            }
            let what = copy_of(&event.what)?;
            self.place += 1;
            self.happen(what, deeds)?;
        }
        Ok(())
    }

    // One event happens.
    #[inline(never)]
    fn happen(&mut self, what: What, deeds: &mut Deeds) -> Result<(), NoMemory>
        requires running { IsRunning self.old }
        requires fit { IsFit what }
        ensures kept { OnOk result (Keeps self.old self.new) }
        ensures stands { OnOk result (Happens self.old deeds.old self.new deeds.new what) }
    {
        match what {
            What::Rate(_, _) => Ok(()),
            What::Delay(who, requests, replies) => {
                self.wire.set_delay(who, requests, replies);
                Ok(())
            }
            What::Loss(who, requests, replies) => {
                self.wire.set_loss(who, requests, replies);
                Ok(())
            }
            What::Watch(who, on) => {
                self.in_force.set_watch(who, on);
                Ok(())
            }
            What::Ready(who, status) => {
                self.in_force.set_status(who, status);
                Ok(())
            }
            What::Crash(who) => self.crash(who, deeds),
            What::Start(who) => self.start(who, deeds),
            What::Stop(who) => self.stop(who, deeds),
            What::Pause(who, beats) => self.pause(who, beats, deeds),
            What::Stall(beats) => self.stall(beats, deeds),
            What::Put(key, object) => self.put(key, object, deeds),
            What::Remove(key) => self.remove(key, deeds),
        }
    }
}

// An event's copy equals it.
fn copy_of(what: &What) -> Result<What, NoMemory>
    ensures { IfOk result (λ copy. copy ≡ what.now) }
{
    match what {
        What::Rate(who, ppm) => Ok(What::Rate(*who, *ppm)),
        What::Delay(who, requests, replies) => Ok(What::Delay(*who, *requests, *replies)),
        What::Loss(who, requests, replies) => Ok(What::Loss(*who, *requests, *replies)),
        What::Crash(who) => Ok(What::Crash(*who)),
        What::Start(who) => Ok(What::Start(*who)),
        What::Stop(who) => Ok(What::Stop(*who)),
        What::Watch(who, on) => Ok(What::Watch(*who, *on)),
        What::Ready(who, status) => Ok(What::Ready(*who, *status)),
        What::Pause(who, beats) => Ok(What::Pause(*who, *beats)),
        What::Stall(beats) => Ok(What::Stall(*beats)),
        What::Put(key, object) => Ok(What::Put(*key, object.copy()?)),
        What::Remove(key) => Ok(What::Remove(*key)),
    }
}
