// The clock of a process, with the rates of all its events from the start, and its pauses.
ghost use Rattle.std.specs.Prelude.{◌≡◌, ◌*◌, ◌*ℤ◌, ◌≤ℤ◌, ◌++◌, pos, negsuc, ◌<◌, ◌≤◌, ℕ, IfOk, OnOk};
ghost use Rattle.kube_objects.specs.Clocks.{rate_of as ppm_of, last_rate};
ghost use Rattle.kube_objects.specs.Document.{Doc, of_millis};
ghost use Rattle.kube_objects.specs.Newest.{or_else};
ghost use Rattle.history.specs.Sound.{AreApart};
ghost use Rattle.pause_times.specs.Owned.{PausesStand, pauses_of};
ghost use Rattle.script_reader.specs.Lawful.{AreLawful, IsLawful};
ghost use Rattle.skew_clock.specs.Clocking.{rate_at, last_set};
ghost use Rattle.world_process.specs.Beats.{IsBeatOf};
ghost use Rattle.world_process.specs.Clocked.{AreEventsFrom, ClockStands, IsMadeOf, SameSpan};

use kube_base::{Beat, Local, NoMemory, ProcId};
use kube_objects::{Event, Proc, Settings, What};
use pause_times::Pauses;
use skew_clock::Clock;
use std::alloc::Global;

/// The clock of a process, and its pauses. Both are read in one walk over the events.
pub fn times_for(
    alloc: Global,
    me: ProcId,
    settings: &Settings,
    process: &Proc,
    events: &[Event],
) -> Result<(Clock, Pauses), NoMemory>
    requires settings { AreLawful settings.now }
    requires process { IsLawful process.now }
    requires events { AreEventsFrom settings.now.end_beat.0 0 events.now }
    requires apart { AreApart events.now }
    ensures end { IfOk result (λ times. times.0.end ≡ settings.now.end_beat.0) }
    ensures clock { (doc : Doc) (p : ℕ) → IsMadeOf doc p me.0 settings.now process.now events.now
        → IfOk result (λ times. ClockStands doc p times.0) }
    ensures pauses { (doc : Doc) (p : ℕ) → IsMadeOf doc p me.0 settings.now process.now events.now
        → IfOk result (λ times. PausesStand doc p times.1) }
{
    let mut clock = Clock::new(
        alloc,
        settings.epoch,
        microseconds(process.offset_millis),
        settings.beat_millis * 1000,
        settings.end_beat,
        process.rate_ppm,
    )?;
    let mut pauses = Pauses::new(alloc);
    take_events(&mut clock, &mut pauses, me, events)?;
    // Its contract says that it reads no more than can be handed in.
    let _most = clock.local(clock.end());
    Ok((clock, pauses))
}

// Milliseconds in microseconds.
fn microseconds(millis: i64) -> i64
    requires least { negsuc 31535999999 ≤ℤ millis }
    requires most { millis ≤ℤ pos 31536000000 }
    ensures { result ≡ millis *ℤ pos 1000 }
{
    millis * 1000
}

// Sets the rates of a process's events on its clock, and adds the pauses to its own.
fn take_events(
    clock: &mut Clock,
    pauses: &mut Pauses,
    me: ProcId,
    events: &[Event],
) -> Result<(), NoMemory>
    requires events { AreEventsFrom clock.old.end (last_set clock.old.sets) events.now }
    requires end { clock.old.end ≤ 604800000 }
    ensures same { OnOk result (SameSpan clock.old clock.new) }
    ensures rates { OnOk result ((j : ℕ) → rate_at clock.new.sets j ≡ or_else (rate_at clock.old.sets j) (last_rate me.0 j events.now)) }
    ensures pauses { OnOk result (pauses.new.all.items ≡ pauses.old.all.items ++ pauses_of me.0 events.now) }
{
    for event in events {
        if let Some(ppm) = rate_of(&event.what, me) {
            clock.set_rate(event.beat, ppm)?;
        }
        pauses.add(me, event)?;
    }
    Ok(())
}

// The rate that an event sets for a process.
fn rate_of(what: &What, me: ProcId) -> Option<u32>
    ensures { result ≡ ppm_of me.0 what.now }
{
    match what {
        What::Rate(id, ppm) if id.0 == me.0 => Some(*ppm),
        _ => None,
    }
}

/// The first beat up to its end at which a clock reads this. None if there is none, or nothing is asked for.
pub fn first_beat(clock: &Clock, at: Option<Local>) -> Option<Beat>
    ensures { IsBeatOf clock.now result at }
{
    match at {
        Some(at) => clock.first_beat(at),
        None => None,
    }
}
