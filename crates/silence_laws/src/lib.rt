//! How long nobody leads at least after a leader in a calm falls silent: laws of every history. Each is the contract of a function with an empty
//! body.
#![tactic(auto)]

ghost use Rattle.silence_laws.specs.Least.{ReleasesLast, SilencesAreTold, SilencesLast};
ghost use Rattle.silence_laws.specs.Silence.{SilentsAreQuiet};

/// Under the project's own rules, a process whose requests are all lost from a beat on, or that sends none, writes no election Lease from then on.
pub fn silents_are_quiet()
    ensures { SilentsAreQuiet }
{}

/// If a leader crashes in a calm, or is cut off, nobody else comes to lead before so many beats have passed as a candidate's looks at the
/// lease take at least, and three messages, less what can have passed since the leader's last renewal.
pub fn silences_last()
    ensures last { SilencesLast }
    ensures told { SilencesAreTold }
{}

/// If a leader in a calm is stopped and its release is accepted, nobody else comes to lead before four messages have travelled: the release,
/// and the reply, the request and the reply by which another one finds that nobody holds the lease, and takes it.
pub fn releases_last()
    ensures { ReleasesLast }
{}
