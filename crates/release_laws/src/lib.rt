//! By when somebody else leads after a leader in a calm span was stopped and its release was accepted: a law of every history, the contract of a
//! function with an empty body.
#![tactic(auto)]

ghost use Rattle.release_laws.specs.Releases.{ReleasesAreFollowed, ReleasesAreTold};

/// If a leader in a calm span is stopped, isn't started again, and its release is accepted, another controller comes to lead and stays: by the
/// longest wait of one that is up for its next attempt, and six ways of a message less one beat; in whole beats by the quotient of that wait.
pub fn releases_are_followed()
    ensures follow { ReleasesAreFollowed }
    ensures told { ReleasesAreTold }
{}
