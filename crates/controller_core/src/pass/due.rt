// When a tick has a pass.
ghost use Rattle.std.specs.Prelude.{◌≡◌, ◌*◌, ◌≤◌, ℕ, List};
ghost use Rattle.kube_base.specs.Bounds.{most_local};
ghost use Rattle.kube_objects.specs.Clocks.{local};
ghost use Rattle.kube_objects.specs.Document.{Doc, of_millis};
ghost use Rattle.kube_objects.specs.Entry.{Entry, Identity};
ghost use Rattle.kube_objects.specs.Health.{is_pass_due};
ghost use Rattle.controller_core.specs.Passing.{LastStands};

use crate::pass::work::LastPass;
use kube_base::Local;

/// Milliseconds as a span of readings, in units of 10^-12 s.
#[tactic(auto, unfolding(kube_objects::specs::Document::of_millis))]
pub fn picoseconds(millis: u32) -> u64
    ensures value { result ≡ of_millis millis }
    ensures plain { result ≡ millis * 1000000000 }
{
    u64::from(millis) * 1_000_000_000
}

/// Whether a tick has a pass: the first of a term, and then one a period after the last, and after that one's work.
pub(crate) fn is_due(last: Option<LastPass>, now: Local) -> bool
    requires { now.0 ≤ most_local }
    ensures { (doc : Doc) (k : ℕ) (q : Identity) (h : List Entry) → LastStands doc q h last → now.0 ≡ local doc q.process k
        → result ≡ is_pass_due doc k q h }
{
    match last {
        None => true,
        Some(last) => now.0 >= last.at.0 && now.0 - last.at.0 >= last.period,
    }
}
