//! By when one leads that stays, whatever was before a calm span: a law of every history. It is the contract of a function with an empty body.
#![tactic(auto)]

ghost use Rattle.settle_laws.specs.Settles.{CalmSpansSettle, SettlingIsTold};

/// In a calm span whose leaders renew in time, one identity acts at each beat from a beat on and alone writes the election Lease. That beat is
/// told by one candidate's waits, call timeout and clock, by the least and greatest delay, by the retry periods and renew deadlines of
/// those who may have led before, and by the longest lease, or the time for which it respects the record that was there; in whole beats by their
/// quotients.
pub fn calm_spans_settle()
    ensures settle { CalmSpansSettle }
    ensures told { SettlingIsTold }
{}
