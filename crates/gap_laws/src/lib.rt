//! How long nobody leads at least: the time from a leader's last write of the election Lease to the lead of somebody else.
#![tactic(auto)]

ghost use Rattle.gap_laws.specs.Gaps.{GapsLast, OthersWait};

/// Whoever comes to lead over a record that another holds does so no sooner than what it waits for such a record takes on its own clock since
/// the record was written, and three messages take: for every document that can be read. It waits the record's duration, or its own if each
/// controller goes by its own.
pub fn gaps_last()
    ensures { GapsLast }
{}

/// If the lease premise holds, nobody acts for so long after a leader that doesn't give up its lead: for every document that can be read.
pub fn others_wait()
    ensures { OthersWait }
{}
