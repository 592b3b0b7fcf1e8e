//! The numbers of a document's bounds on its leaders hold of its history. The functions do nothing: each carries a law on its contract.
#![tactic(auto)]

ghost use Rattle.bounds_laws.specs.Alike.{AlikeTellTheSame, UpToIsBetween};
ghost use Rattle.bounds_laws.specs.Elections.{ActsAreBounded, CrashesAreBounded, LeadsAreBounded, StaysAreBounded, StopsAreBounded};

/// Waits that are as long for each controller give the same numbers, in whichever way they are said: what flags say of a longest wait is what a
/// document says of so many thousandths of a retry period.
pub fn waits_are_told_alike()
    ensures alike { AlikeTellTheSame }
    ensures up_to { UpToIsBetween }
{}

/// After a leader falls silent in a calm, as by a crash, nobody else leads sooner than the least of its two numbers, and by the greatest another one
/// does and stays: for every document that can be read. What its clocks, delays and settings bear is read from the document and not asked.
pub fn crashes_are_bounded()
    ensures { CrashesAreBounded }
{}

/// The same after a stop whose release is accepted.
pub fn stops_are_bounded()
    ensures { StopsAreBounded }
{}

/// A leader whose requests are lost acts for no longer than its number says.
pub fn acts_are_bounded()
    ensures { ActsAreBounded }
{}

/// In a calm, whatever was before, somebody acts by the number from its beginning.
pub fn leads_are_bounded()
    ensures { LeadsAreBounded }
{}

/// And by its number one leads that stays.
pub fn stays_are_bounded()
    ensures { StaysAreBounded }
{}
