//! When a beat adds an entry to the history: laws of every document, kubelets, a leader's ticks and its releases included. Each is the contract
//! of a function with an empty body.
#![tactic(auto)]

ghost use Rattle.agenda_laws.specs.Ahead.{NoTurnsAreFirst, TurnsAreAdded, TheSoonestIsNext};
ghost use Rattle.agenda_laws.specs.Parts.{EventsAddByParts, ElectorsAddByParts, ControllersAddByParts, KubeletsAddByParts, TicksAddByParts};
ghost use Rattle.agenda_laws.specs.Standing.{BeatsAddByParts, BeatsAddTheirs, EntriesStandWhereAdded, StandingIsTested};
ghost use Rattle.agenda_laws.specs.Ticking.{SyncsWake, PassesWake, CleansWake, JudgesWake, HeadsWake, DeletesWake, RoomsWake, TicksWake};
ghost use Rattle.agenda_laws.specs.Times.{RestartsWake, ExpiriesWake, DeadlinesWake, AttemptsWake, ElectorsWake, RoundsWake, KubeletsWake};
ghost use Rattle.agenda_laws.specs.Waking.{TurnsWake, EndsWakeToo, BeatsWake, HistoriesAreRested, QuietBeatsAreSlept, NextBeatsWake};

/// A beat adds entries of its own steps alone, and an entry stands at a beat exactly if the beat adds one.
pub fn entries_stand_where_added()
    ensures theirs { BeatsAddTheirs }
    ensures stands { EntriesStandWhereAdded }
    ensures tested { StandingIsTested }
{}

/// A beat leaves a history as it is exactly if each of its parts, done on that history by itself, does; so it is with a turn and
/// its parts, and with a tick and its parts.
pub fn beats_add_by_parts()
    ensures beats { BeatsAddByParts }
    ensures events { EventsAddByParts }
    ensures electors { ElectorsAddByParts }
    ensures controllers { ControllersAddByParts }
    ensures kubelets { KubeletsAddByParts }
    ensures ticks { TicksAddByParts }
{}

/// Each part of a turn but for the tick, and all of them together, adds something exactly from a reading of the process's clock on.
pub fn turns_wake_by_readings()
    ensures restarts { RestartsWake }
    ensures expiries { ExpiriesWake }
    ensures deadlines { DeadlinesWake }
    ensures attempts { AttemptsWake }
    ensures electors { ElectorsWake }
    ensures rounds { RoundsWake }
    ensures kubelets { KubeletsWake }
{}

/// Each part of a tick adds something at once, or exactly from a reading on, or exactly from a time of day and a reading on; nothing else of a
/// tick depends on the beat. What the tick of a pass does more of nodes stands beside that pass.
pub fn ticks_wake_by_times()
    ensures syncs { SyncsWake }
    ensures passes { PassesWake }
    ensures cleans { CleansWake }
    ensures judges { JudgesWake }
    ensures heads { HeadsWake }
    ensures deletes { DeletesWake }
    ensures rooms { RoomsWake }
    ensures ticks { TicksWake }
{}

/// A turn, and a beat, adds something exactly if something is there that a process waits for. The next beat with an entry is found on
/// one history alone.
pub fn beats_wake_by_causes()
    ensures turns { TurnsWake }
    ensures ends { EndsWakeToo }
    ensures beats { BeatsWake }
    ensures rested { HistoriesAreRested }
    ensures quiet { QuietBeatsAreSlept }
    ensures next { NextBeatsWake }
{}

/// The next beat with an entry is the soonest of the first starts, the next event, the next message, and the next turn of each process, all
/// on the history before the first of these beats.
pub fn next_beats_are_soonest()
    ensures first { NoTurnsAreFirst }
    ensures more { TurnsAreAdded }
    ensures next { TheSoonestIsNext }
{}
