// Proof that a leader acts.
ghost use Rattle.std.specs.Prelude.{◌≡◌};
ghost use Rattle.leader_elector.specs.Stands.{Names, acting_identity};

use crate::elector::Elector;
use kube_base::ProcId;

/// A leader whose deadline isn't reached, or that acts until its release has ended. It exists only while its `Leading` or its
/// `Releasing` is borrowed.
#[derive(Drop)]
pub struct Acting<'a> {
    pub(crate) elector: &'a Elector,
}

impl Acting<'_> {
    /// The process and incarnation that acts.
    pub fn identity(&self) -> (ProcId, u32)
        ensures { Names (acting_identity self.now) result }
    {
        (self.elector.me, self.elector.incarnation)
    }
}
