//! A leader in a calm span stays: a law of every history. It is the contract of a function with an empty body.
#![tactic(auto)]

ghost use Rattle.stay_laws.specs.Stays.{LeadersStay};

/// In a calm span, a leader that had a success by a call of the span, its lead or a renewal, acts at each beat from then on, and nobody else
/// writes the election Lease. Four ways of a message take no longer than its renew deadline, and its retry period with five ways takes less
/// on each steady controller's clock than its record blocks that one: for its lease duration, or for the other's, by the rule `respect`.
pub fn leaders_stay()
    ensures { LeadersStay }
{}
