// The stalls of the store.
ghost use Rattle.std.specs.Prelude.{◌≡◌, ◌+◌, ◌<◌, ◌^◌, ◌++◌, IfOk, IfSome, OnOk};
ghost use Rattle.kube_objects.specs.Document.{Doc};
ghost use Rattle.kube_objects.specs.Stalls.{awake as awake_of, is_stalled as is_stalled_at, stall_end, stall_of};
ghost use Rattle.pause_times.specs.Owned.{AreStallsFit, StallsStand, beat_of, stalls_in, stalls_of};

use crate::spans::{Pause, end_among};
use kube_base::{Beat, NoMemory};
use kube_objects::{Event, What};
use std::alloc::Global;

/// The stalls of the store in the order of their beats. None begins before the one before it is over.
#[derive(Drop)]
pub struct Stalls {
    pub all: Vec<Pause>,
}

impl Stalls {
    /// Those that events begin.
    pub fn of(alloc: Global, events: &[Event]) -> Result<Stalls, NoMemory>
        requires { AreStallsFit events.now }
        ensures { IfOk result (λ stalls. stalls.all.items ≡ stalls_of events.now) }
    {
        let mut stalls = Stalls {
            all: Vec::new(alloc),
        };
        for event in events {
            stalls.add(event)?;
        }
        Ok(stalls)
    }

    // Adds the stall that an event begins, where it begins one.
    fn add(&mut self, event: &Event) -> Result<(), NoMemory>
        requires { IfSome (stall_of event.now.what) (λ beats. event.now.beat.0 + beats < 2 ^ 32) }
        ensures { OnOk result (self.new.all.items ≡ self.old.all.items ++ stalls_in event.now) }
    {
        if let Some(beats) = beats_of(&event.what) {
            self.all.push(Pause {
                begins: event.beat,
                ends: Beat(event.beat.0 + beats),
            })?;
        }
        Ok(())
    }

    /// The beat at which the stall is over in which a beat lies.
    pub fn end_at(&self, beat: Beat) -> Option<Beat>
        ensures { (doc : Doc) → StallsStand doc self.now → beat_of result ≡ stall_end doc beat.0 }
    {
        end_among(&self.all, beat)
    }

    /// Whether the store stands still at a beat.
    pub fn is_stalled(&self, beat: Beat) -> bool
        ensures { (doc : Doc) → StallsStand doc self.now → result ≡ is_stalled_at doc beat.0 }
    {
        self.end_at(beat).is_some()
    }

    /// The first beat from this one on at which the store goes.
    pub fn awake(&self, beat: Beat) -> Beat
        ensures { (doc : Doc) → StallsStand doc self.now → result.0 ≡ awake_of doc beat.0 }
    {
        match self.end_at(beat) {
            Some(end) => end,
            None => beat,
        }
    }
}

// For how many beats an event stops the store.
fn beats_of(what: &What) -> Option<u32>
    ensures { result ≡ stall_of what.now }
{
    match what {
        What::Stall(beats) => Some(*beats),
        _ => None,
    }
}
