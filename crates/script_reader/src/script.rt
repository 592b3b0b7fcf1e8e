// The events of a document as far as they are read.
ghost use Rattle.std.specs.Prelude.{◌≡◌, ◌++◌, ◌∷◌, [], OnOk};
ghost use Rattle.kube_objects.specs.declared.script.What.TheVariants.{Pause, Stall};
ghost use Rattle.script_reader.specs.Scripts.{AreEnds, IsEnd, IsIndexed};
ghost use Rattle.script_reader.specs.Walk as walk;

use kube_base::{Beat, NoMemory, ProcId};
use kube_objects::{Event, Events, What};
use std::alloc::Global;
use std::collections::BTreeMap;

/// Events in their order, with the latest end of each process's pauses, and of the stalls of the store.
#[derive(Drop)]
pub(crate) struct Script {
    pub(crate) events: Events,
    /// The beat of the last one, or 0.
    pub(crate) last: Beat,
    pause_ends: BTreeMap<u32, u64>,
    stall_end: Option<u64>,
}

impl Script {
    pub(crate) fn new(alloc: Global) -> Script
        ensures events { result.events ≡ [] }
        ensures last { result.last.0 ≡ 0 }
        ensures indexed { IsIndexed result }
    {
        Script {
            events: Events::new(alloc),
            last: Beat(0),
            pause_ends: BTreeMap::new(alloc),
            stall_end: None,
        }
    }

    /// Whether an earlier pause of a process ends at this beat or later.
    fn pauses_up_to(&self, id: ProcId, beat: u32) -> bool
        requires { IsIndexed self.now }
        ensures { result ≡ walk.is_paused_up_to id.0 beat self.now.events }
    {
        match self.pause_ends.get(&id.0) {
            Some(end) => u64::from(beat) <= *end,
            None => false,
        }
    }

    /// Whether an earlier stall of the store ends at this beat or later.
    fn stalls_up_to(&self, beat: u32) -> bool
        requires { IsIndexed self.now }
        ensures { result ≡ walk.is_stalled_up_to beat self.now.events }
    {
        match self.stall_end {
            Some(end) => u64::from(beat) <= end,
            None => false,
        }
    }

    /// Whether an event at this beat pauses a process that an earlier one pauses up to this beat or longer, or so stops the store.
    pub(crate) fn is_too_soon(&self, beat: u32, what: &What) -> bool
        requires { IsIndexed self.now }
        ensures { result ≡ walk.is_too_soon self.now.events beat what.now }
    {
        match what {
            What::Pause(id, _) => self.pauses_up_to(*id, beat),
            What::Stall(_) => self.stalls_up_to(beat),
            _ => false,
        }
    }

    /// Keeps the end of a pause, unless an earlier one of the process ends later.
    fn keep_pause(&mut self, id: ProcId, from: Beat, beats: u32) -> Result<(), NoMemory>
        requires { IsIndexed self.old }
        ensures events { self.new.events ≡ self.old.events }
        ensures stalls { self.new.stall_end ≡ self.old.stall_end }
        ensures ends { OnOk result (AreEnds self.new.pause_ends
            (self.old.events ++ record { beat = from; what = Pause id beats } ∷ [])) }
    {
        let end = u64::from(from.0) + u64::from(beats);
        let latest = match self.pause_ends.get(&id.0) {
            Some(earlier) => end.max(*earlier),
            None => end,
        };
        self.pause_ends.insert(id.0, latest)?;
        Ok(())
    }

    /// Keeps the end of a stall, unless an earlier one ends later.
    fn keep_stall(&mut self, from: Beat, beats: u32)
        requires { IsIndexed self.old }
        ensures events { self.new.events ≡ self.old.events }
        ensures pauses { self.new.pause_ends ≡ self.old.pause_ends }
        ensures ends { IsEnd self.new.stall_end (self.old.events ++ record { beat = from; what = Stall beats } ∷ []) }
    {
        let end = u64::from(from.0) + u64::from(beats);
        let latest = match self.stall_end {
            Some(earlier) => end.max(earlier),
            None => end,
        };
        self.stall_end = Some(latest);
    }

    /// Adds an event behind the others.
    pub(crate) fn push(&mut self, event: Event) -> Result<(), NoMemory>
        requires { IsIndexed self.old }
        ensures events { OnOk result (self.new.events ≡ self.old.events ++ event ∷ []) }
        ensures last { OnOk result (self.new.last ≡ event.beat) }
        ensures indexed { OnOk result (IsIndexed self.new) }
    {
        match event.what {
            What::Pause(id, beats) => self.keep_pause(id, event.beat, beats)?,
            What::Stall(beats) => self.keep_stall(event.beat, beats),
            _ => {}
        }
        self.last = event.beat;
        self.events.push(event)?;
        Ok(())
    }
}
