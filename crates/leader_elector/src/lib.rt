//! Leader election as client-go's `leaderelection` does it, as typed states: a candidate, a leader, and the end of a term.
//!
//! Its `acquire` is `Candidate` (`candidate.rt`): `turn` is one round of the loop, `hear` takes a reply, `Won` (`won.rt`) is the success, from which alone a term begins.
//! Its `renew` is `Leading` (`leading.rt`), with `on_timer`, `on_reply` and the `deadline`; its `release` is `Releasing` (`releasing.rt`), which
//! a deadline or `Leading::release` begins.
//! An attempt of either, `tryAcquireOrRenew`, goes through `Elector` (`elector.rt`):
//! 1. `expire` forgets a call without a reply; where it is time `attempt` begins, with a Get or, in `renew`, the fast path's update.
//! 2. `receive` drops replies that don't count, and `note` keeps what is shown (`observedRecord`, `observedTime`).
//! 3. `follow` says what comes next: the Create of a `new_lease`, an `update_of` what was found (`renewal` or `takeover`), the
//!    end of the attempt, or its success (`follow.rt`).
//! 4. `set_timer` is the wait of a retry period after a success, and that of `Attempts` (`attempts.rt`) after a failure.
#![tactic(auto)]

mod acting;
mod attempts;
mod candidate;
mod elector;
mod ended;
mod follow;
mod leading;
mod reading;
mod releasing;
mod seen;
mod timing;
mod waiting;
mod won;

pub use acting::Acting;
pub use candidate::{Candidate, CandidateNext, Heard};
pub use ended::{Ended, ReleaseEnd, Released};
pub use leading::{Leading, LeadingNext};
pub use releasing::{Releasing, ReleasingNext};
pub use timing::Timing;
pub use won::Won;

#[cfg(test)]
mod tests;
