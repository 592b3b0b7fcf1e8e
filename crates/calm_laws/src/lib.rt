//! By when somebody leads in a calm span, whatever was before it: a law of every history. It is the contract of a function with an empty body.
#![tactic(auto)]

ghost use Rattle.calm_laws.specs.Bounds.{TakeoversAreBounded, TakeoversAreTold};

/// In a calm span, an identity of a controller whose messages pass acts by a beat that is told by one candidate's waits, call timeout
/// and clock, by the least and greatest delay, and by the time for which it respects the record that was there before; in whole beats by their quotients.
pub fn takeovers_are_bounded()
    ensures bounded { TakeoversAreBounded }
    ensures told { TakeoversAreTold }
{}
