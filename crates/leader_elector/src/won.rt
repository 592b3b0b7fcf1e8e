// The right to lead.
ghost use Rattle.std.specs.Prelude.{◌≤◌};
ghost use Rattle.kube_base.specs.Bounds.{most_local};

use crate::elector::Elector;
use kube_base::Local;

/// A candidate's success: all that the candidate kept, and the reading of the reply. Only `Candidate::hear` makes one, and a term
/// begins by its `lead` alone.
#[derive(Drop)]
pub struct Won {
    pub(crate) elector: Elector,
    pub(crate) now: Local,
    ghost now_fits: { now.0 ≤ most_local },
}
