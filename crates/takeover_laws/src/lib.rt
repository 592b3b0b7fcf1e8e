//! How calls go, who acts, and what stays stored in a calm span, under the project's own rules but for those of elections and of a term's
//! first sync: laws of every history. Each is the contract of a function with an empty body.
#![tactic(auto)]

ghost use Rattle.takeover_laws.specs.Acting.{RecordsStay, WritersAct};
ghost use Rattle.takeover_laws.specs.Asking.{CandidatesAsk};
ghost use Rattle.takeover_laws.specs.Rounds.{RepliesCount, RoundsAreShort};
ghost use Rattle.takeover_laws.specs.Taking.{TakeoversEndInActing};
ghost use Rattle.takeover_laws.specs.Waits.{OwnWaitsAreWhole, WaitsAreBetween};

/// Each call of a controller whose messages pass is answered after one way, and its reply is delivered after another; it counts if the
/// sender stays up and the call timeout is at least two ways.
pub fn rounds_are_short()
    ensures short { RoundsAreShort }
    ensures count { RepliesCount }
{}

/// Who writes the election Lease by a call that was sent in a calm acts by the time the reply comes. So while nobody acts, what is stored
/// one way after the calm began stays stored, but for the last way.
pub fn writers_act()
    ensures writers { WritersAct }
    ensures records { RecordsStay }
{}

/// Each wait of a candidate after a failed attempt lies between its shortest and its longest one; both are its retry period if the document
/// says no waits.
pub fn waits_are_between()
    ensures between { WaitsAreBetween }
    ensures whole { OwnWaitsAreWhole }
{}

/// A candidate whose attempt failed asks again as soon as its clock has gone its longest wait since, and no sooner than its shortest one.
pub fn candidates_ask()
    ensures { CandidatesAsk }
{}

/// In a calm, a write on the stored record, or its creation if none is stored, is accepted: it isn't sent while nobody acts up to two
/// ways later.
pub fn takeovers_end_in_acting()
    ensures { TakeoversEndInActing }
{}
