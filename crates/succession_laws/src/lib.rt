//! By when somebody else leads after a leader in a calm span has fallen silent, and how long the leader itself acts on: laws of every history. Each
//! is the contract of a function with an empty body.
#![tactic(auto)]

ghost use Rattle.succession_laws.specs.Successions.{LeadersActOn, SuccessorsAreTold, SuccessorsLead};

/// If a leader in a calm span crashes, or all its requests are lost from then on, another controller comes to lead and stays: by the time that
/// the looks of one that is up take at most until they find the leader's lease over, its longest wait for its next attempt, and six ways of a message;
/// in whole beats by their quotients.
pub fn successors_lead()
    ensures lead { SuccessorsLead }
    ensures told { SuccessorsAreTold }
{}

/// A leader whose requests are lost acts on at most until its retry period and its renew deadline have passed since its last success, which comes
/// less than two ways after its last request that wasn't lost.
pub fn leaders_act_on()
    ensures { LeadersActOn }
{}
