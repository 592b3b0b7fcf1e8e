// The end of a term.
ghost use Rattle.std.specs.Prelude.{◌≡◌};
ghost use Rattle.leader_elector.specs.Stands.{Names, ended_identity};

use crate::Releasing;
use kube_base::ProcId;
use kube_objects::Ask;

/// A controller whose term has ended.
#[derive(Debug, Drop)]
pub struct Ended {
    pub(crate) me: ProcId,
    pub(crate) incarnation: u32,
}

/// How a term is given up: at once, with the update that gives up the lead, or by a release, which begins with a call.
#[derive(Drop)]
pub enum Released {
    AtOnce(Ended, Option<Ask>),
    Begins(Releasing, Ask),
}

/// A release that is over: whether its leader acted until then, and whether its process starts again.
#[derive(Debug, Drop)]
pub struct ReleaseEnd {
    pub ended: Ended,
    pub acted: bool,
    pub restarts: bool,
}

impl Ended {
    /// The process and incarnation whose term has ended.
    pub fn identity(&self) -> (ProcId, u32)
        ensures { Names (ended_identity self.now) result }
    {
        (self.me, self.incarnation)
    }
}
