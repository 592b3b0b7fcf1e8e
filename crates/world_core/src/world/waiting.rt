// What is waited for: the next event, the next message, and the next turn of each process.
ghost use Rattle.std.specs.Prelude.{◌≡◌, ◌+◌, ◌<◌, ◌≤◌, ℕ, List, min, IfSome};
ghost use Rattle.kube_objects.specs.Document.{Doc, end_beat};
ghost use Rattle.kube_objects.specs.Entry.{Entry};
ghost use Rattle.kube_objects.specs.Pauses.{resume as resume_of};
ghost use Rattle.kube_objects.specs.Stalls.{awake as awake_of};
ghost use Rattle.script_reader.specs.Lawful.{AreLawfulFrom};
ghost use Rattle.agenda_laws.specs.Ahead.{IsNextEvent, IsNextMessage};
ghost use Rattle.agenda_laws.specs.Times.{sooner as soonest};
ghost use Rattle.world_core.specs.Waits.{IsFirstTurn, IsLeastTurn, IsTurnBeat, TurnWakesStand, WakesStand, beat_of, local_of};
ghost use Rattle.world_core.specs.Worlds.{at_of, count_of, end_of, IsReady, WorldStands};

use crate::wakes::Wakes;
use crate::world::World;
use kube_base::{Beat, Local, ProcId};
use world_process::first_beat;

impl World {
    /// The beat of the first event not yet done; None exactly if none is left.
    pub fn next_event(&self) -> Option<Beat>
        ensures { (doc : Doc) (k : ℕ) (h : List Entry) → WorldStands doc k h self.now → AreLawfulFrom doc 0 doc.events
            → IsNextEvent doc k (beat_of result) }
    {
        match self.events.as_slice().get(self.place) {
            Some(event) => Some(event.beat),
            None => None,
        }
    }

    /// The least beat of anything in flight that isn't past the end; None exactly if there is none.
    pub fn next_wire(&self) -> Option<Beat>
        ensures { (doc : Doc) (k : ℕ) (h : List Entry) → WorldStands doc k h self.now → end_of self.now ≡ end_beat doc
            → IsNextMessage doc k h (beat_of result) }
    {
        let arrives = self.wire.next()?;
        if arrives.0 > self.end.0 {
            return None;
        }
        Some(arrives)
    }

    /// What a process waits for.
    pub fn wakes(&self, who: ProcId) -> Wakes
        requires ready { IsReady self.now }
        requires within { at_of self.now ≤ end_of self.now }
        requires process { who.0 < count_of self.now }
        ensures { (doc : Doc) (k : ℕ) (h : List Entry) → WorldStands doc k h self.now → end_of self.now ≡ end_beat doc
            → WakesStand doc k who.0 h result }
    {
        let process = &self.processes[who.0 as usize];
        if self.beat.0 == 0 && process.is_up_first() {
            return Wakes::at_once();
        }
        let wake = process.wake();
        if process.leadership(self.beat).is_none() {
            return Wakes::with(false, wake, None, None);
        }
        let watch = self.in_force.watch(who);
        let term = sooner(process.sync_wake(&self.store, watch), process.term_wake());
        Wakes::with(
            process.at_once(&self.store, watch),
            sooner(wake, term),
            process.least_due(),
            process.delete_wake(),
        )
    }

    /// What a process waits for, its tick aside.
    pub fn turn_wakes(&self, who: ProcId) -> Wakes
        requires { who.0 < count_of self.now }
        ensures { (doc : Doc) (k : ℕ) (h : List Entry) → WorldStands doc k h self.now → TurnWakesStand doc who.0 h result }
    {
        let process = &self.processes[who.0 as usize];
        Wakes::with(false, process.wake(), None, None)
    }

    /// The first beat up to the end at which a process's clock has the reading that is waited for; None if there is none.
    pub fn turn_beat(&self, who: ProcId, wakes: &Wakes) -> Option<Beat>
        requires ready { IsReady self.now }
        requires process { who.0 < count_of self.now }
        ensures { (doc : Doc) (k : ℕ) (h : List Entry) → WorldStands doc k h self.now → end_of self.now ≡ end_beat doc
            → IsTurnBeat doc who.0 wakes.now result }
    {
        let process = &self.processes[who.0 as usize];
        if wakes.local == process.wake() {
            return process.turn_beat();
        }
        first_beat(process.clock(), wakes.local)
    }

    /// The first process from one on whose turn, its tick aside, would add something at a beat before another, were it not paused; None
    /// exactly if there is none. Nobody is asked: each has the beat of its next turn noted.
    pub fn first_turn(&self, from: u32, before: Option<Beat>) -> Option<ProcId>
        requires { IsReady self.now }
        ensures range { IfSome result (λ who. (from ≤ who.0) × (who.0 < count_of self.now)) }
        ensures first { (doc : Doc) (k : ℕ) (h : List Entry) → WorldStands doc k h self.now → end_of self.now ≡ end_beat doc
            → IsFirstTurn doc from (beat_of before) h result }
    {
        let i = self.turn_beats.first_before(from as usize, before)?;
        Some(ProcId(i as u32))
    }

    /// A process before whose turn no other's comes, pauses and ticks aside; None exactly if none comes up to the end.
    pub fn least_turn(&self) -> Option<ProcId>
        requires { IsReady self.now }
        ensures range { IfSome result (λ who. who.0 < count_of self.now) }
        ensures least { (doc : Doc) (k : ℕ) (h : List Entry) → WorldStands doc k h self.now → end_of self.now ≡ end_beat doc
            → IsLeastTurn doc h result }
    {
        let i = self.turn_beats.least()?;
        Some(ProcId(i as u32))
    }

    /// The first beat from this one on at which a process isn't paused; the beat after the end, if there is none up to the end.
    pub fn resume(&self, who: ProcId, beat: Beat) -> Beat
        requires ready { IsReady self.now }
        requires within { beat.0 ≤ end_of self.now }
        requires process { who.0 < count_of self.now }
        ensures { (doc : Doc) (k : ℕ) (h : List Entry) → WorldStands doc k h self.now → end_of self.now ≡ end_beat doc
            → result.0 ≡ min (resume_of doc who.0 beat.0) (end_beat doc + 1) }
    {
        let resumes = self.processes[who.0 as usize].resume(beat);
        Beat(resumes.0.min(self.end.0 + 1))
    }

    /// The first beat from this one on at which the store goes; the beat after the end, if there is none up to the end.
    pub fn awake(&self, beat: Beat) -> Beat
        requires ready { IsReady self.now }
        ensures { (doc : Doc) (k : ℕ) (h : List Entry) → WorldStands doc k h self.now → end_of self.now ≡ end_beat doc
            → result.0 ≡ min (awake_of doc beat.0) (end_beat doc + 1) }
    {
        let wakes = self.stalls.awake(beat);
        Beat(wakes.0.min(self.end.0 + 1))
    }
}

// The sooner of two readings.
fn sooner(one: Option<Local>, other: Option<Local>) -> Option<Local>
    ensures { local_of result ≡ soonest (local_of one) (local_of other) }
{
    match (one, other) {
        (None, other) => other,
        (Some(one), Some(other)) if other.0 < one.0 => Some(other),
        (one, _) => one,
    }
}
