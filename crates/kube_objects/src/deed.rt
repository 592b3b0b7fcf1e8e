// The printed entries of the history.
use crate::{Answer, Key, ReadyStatus, ZoneState};
use kube_base::{Beat, ListOf, ProcId, Version, Wall};

/// Who did something: the script, or a process in an incarnation.
#[derive(Clone, Copy, Debug, PartialEq, Eq)]
pub enum Actor {
    Script,
    Proc(ProcId, u32),
}

/// What was done. The last number of `Create` and `Update` is the transitions of the written Lease, 0 if it has none.
#[derive(Clone, Copy, Debug, PartialEq, Eq)]
pub enum Act {
    Start,
    Crash,
    /// A controller gives up the lead in order.
    Stop,
    /// A leader has reached its renew deadline.
    End,
    /// A process stands still for so many beats.
    Pause(u32),
    /// The store stands still for so many beats.
    Stall(u32),
    Lead(Version),
    Create(Key, Answer, u32),
    Update(Key, Answer, u32),
    /// A node's status, as its kubelet posted it.
    Posted(u32, ReadyStatus, Answer),
    Put(Key, Version),
    Removed(Key, Version),
    /// A node and the reason with which it was marked Unknown.
    Marked(u32, u32, Answer),
    /// Whether the mode in which every zone is disrupted is on.
    Mode(bool),
    /// Region, zone, state and rate of tainting in nodes per 1,000 s.
    Zone(u32, u32, ZoneState, u32),
    /// A node and the key of the taint.
    Tainted(u32, u32, Answer),
    /// A node and the key of the taint that it has now.
    Swapped(u32, u32, Answer),
    Untainted(u32, Answer),
    /// A pod and when it was due.
    Evicted(Key, Wall, Answer),
}

/// One line of the trace.
#[derive(Clone, Copy, Debug, PartialEq, Eq)]
pub struct Deed {
    pub beat: Beat,
    pub actor: Actor,
    pub act: Act,
}

/// Deeds in order.
pub type Deeds = ListOf<Deed>;
