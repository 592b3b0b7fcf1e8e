// The pauses of a process.
ghost use Rattle.std.specs.Prelude.{◌≡◌, ◌+◌, ◌<◌, ◌≤◌, ◌^◌, ◌++◌, ℕ, [], IfSome, OnOk};
ghost use Rattle.kube_objects.specs.Document.{Doc};
ghost use Rattle.kube_objects.specs.Pauses.{can_at as can_of, is_paused as is_paused_at, pause_end, pause_of, resume as resume_of};
ghost use Rattle.pause_times.specs.Clocked.{IsClockOf};
ghost use Rattle.pause_times.specs.Owned.{PausesStand, beat_of, pauses_in};

use crate::spans::{Pause, end_among};
use kube_base::{Beat, Local, NoMemory, ProcId};
use kube_objects::{Event, What};
use skew_clock::Clock;
use std::alloc::Global;

/// A process's pauses in the order of their beats. None begins before the one before it is over.
#[derive(Drop)]
pub struct Pauses {
    pub all: Vec<Pause>,
}

impl Pauses {
    /// Those of a process that is never paused.
    pub fn new(alloc: Global) -> Pauses
        ensures { result.all.items ≡ [] }
    {
        Pauses {
            all: Vec::new(alloc),
        }
    }

    /// Adds the pause of a process that an event begins, if it begins one.
    pub fn add(&mut self, me: ProcId, event: &Event) -> Result<(), NoMemory>
        requires { IfSome (pause_of me.0 event.now.what) (λ beats. event.now.beat.0 + beats < 2 ^ 32) }
        ensures { OnOk result (self.new.all.items ≡ self.old.all.items ++ pauses_in me.0 event.now) }
    {
        if let Some(beats) = beats_of(&event.what, me) {
            self.all.push(Pause {
                begins: event.beat,
                ends: Beat(event.beat.0 + beats),
            })?;
        }
        Ok(())
    }

    /// The beat at which the pause is over that the process is in at a beat.
    pub fn end_at(&self, beat: Beat) -> Option<Beat>
        ensures { (doc : Doc) (p : ℕ) → PausesStand doc p self.now → beat_of result ≡ pause_end doc p beat.0 }
    {
        end_among(&self.all, beat)
    }

    /// Whether the process is paused at a beat.
    pub fn is_paused(&self, beat: Beat) -> bool
        ensures { (doc : Doc) (p : ℕ) → PausesStand doc p self.now → result ≡ is_paused_at doc p beat.0 }
    {
        self.end_at(beat).is_some()
    }

    /// The first beat from this one on at which the process isn't paused.
    pub fn resume(&self, beat: Beat) -> Beat
        ensures { (doc : Doc) (p : ℕ) → PausesStand doc p self.now → result.0 ≡ resume_of doc p beat.0 }
    {
        match self.end_at(beat) {
            Some(end) => end,
            None => beat,
        }
    }

    /// The reading at which the process can do what is due at a reading. It looks at no beat if the process is never paused.
    pub fn can_at(&self, clock: &Clock, at: Local) -> Local
        ensures value { (doc : Doc) (p : ℕ) → PausesStand doc p self.now → IsClockOf doc p clock.now → result.0 ≡ can_of doc p at.0 }
        ensures range { at.0 ≤ 10 ^ 19 → result.0 ≤ 10 ^ 19 }
    {
        if self.all.is_empty() {
            return at;
        }
        self.can_after(clock, at)
    }

    // The same of a process that is paused at times. It stays out of line, so that one that never is costs a comparison.
    #[inline(never)]
    fn can_after(&self, clock: &Clock, at: Local) -> Local
        ensures value { (doc : Doc) (p : ℕ) → PausesStand doc p self.now → IsClockOf doc p clock.now → result.0 ≡ can_of doc p at.0 }
        ensures range { at.0 ≤ 10 ^ 19 → result.0 ≤ 10 ^ 19 }
    {
        let end = clock.end();
        let Some(first) = clock.first_beat(at) else {
            return at;
        };
        if first.0 >= end.0 {
            return at;
        }
        match self.end_at(first) {
            Some(over) if over.0 < end.0 => clock.local(over),
            Some(_) => clock.local(end),
            None => at,
        }
    }
}

// For how many beats an event pauses a process.
fn beats_of(what: &What, me: ProcId) -> Option<u32>
    ensures { result ≡ pause_of me.0 what.now }
{
    match what {
        What::Pause(id, beats) if id.0 == me.0 => Some(*beats),
        _ => None,
    }
}
