//! Laws of every history, whatever its document. Each is the contract of a function with an empty body.
#![tactic(auto)]

ghost use Rattle.history_laws.specs.Calls.{NumbersCount, NumbersDiffer, TwoCallsABeat, CallsAreFew, OneCallABeat, StopsMakeFewer, ReleasesWait, OthersAreOrdinary};
ghost use Rattle.history_laws.specs.Own.{OwnRulesChangeNothing};
ghost use Rattle.history_laws.specs.Order.{EntriesAreOrdered, EntriesAreEarlier, TurnsArePositions, HistoriesArePositions, StepsOnlyAdd};
ghost use Rattle.history_laws.specs.Starts.{StartsAreFew};
ghost use Rattle.history_laws.specs.Versions.{VersionsAreGiven, VersionsRise, VersionsAreContents};

/// A stored version was given by an earlier write, versions only rise, and equal versions of a key have equal contents.
pub fn versions_are_writes()
    ensures given { VersionsAreGiven }
    ensures rise { VersionsRise }
    ensures contents { VersionsAreContents }
{}

/// The numbers of an incarnation's requests count them, so they differ; it sends at most two requests in a beat, and at most one if a stop
/// sends a single update. While a release runs a call of it waits, and of whoever is up and releases nothing none does.
pub fn calls_are_numbered()
    ensures count { NumbersCount }
    ensures differ { NumbersDiffer }
    ensures two { TwoCallsABeat }
    ensures few { CallsAreFew }
    ensures one { OneCallABeat }
    ensures fewer { StopsMakeFewer }
    ensures waits { ReleasesWait }
    ensures ordinary { OthersAreOrdinary }
{}

/// A process starts at most once at first, once for each event, and once in each beat.
pub fn starts_are_few()
    ensures { StartsAreFew }
{}

/// Entries are ordered by beat and step, and what stands at a process's turn is a position of the history.
pub fn entries_are_ordered()
    ensures ordered { EntriesAreOrdered }
    ensures earlier { EntriesAreEarlier }
    ensures turns { TurnsArePositions }
    ensures histories { HistoriesArePositions }
    ensures adds { StepsOnlyAdd }
{}

/// In a document that goes by the project's own rules but for those of elections and of a term's first sync, and whose store never stands still,
/// each definition of a tick that asks for a rule is the one that asks for none, if its terms settle at once; if it elects by them too, so
/// is each of elections and of the lease premise.
pub fn own_rules_change_nothing()
    ensures { OwnRulesChangeNothing }
{}
