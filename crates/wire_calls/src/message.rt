// What is in flight, and whether a message was lost.
use kube_base::{Beat, ProcId};
use kube_objects::{Reply, Request};

/// What became of a message: lost, or in flight until it arrives at a beat.
#[derive(Clone, Copy, Debug, PartialEq, Eq)]
pub enum Fate {
    Lost,
    InFlight(Beat),
}

/// A request on its way: of a process in an incarnation, by the number of its call.
#[derive(Clone, Copy, Debug, PartialEq, Eq)]
pub struct Sent {
    pub who: ProcId,
    pub incarnation: u32,
    pub number: u64,
    pub request: Request,
}

/// A reply on its way back: to a process in an incarnation, by the number of its call.
#[derive(Clone, Copy, Debug, PartialEq, Eq)]
pub struct Back {
    pub who: ProcId,
    pub incarnation: u32,
    pub number: u64,
    pub reply: Reply,
}
