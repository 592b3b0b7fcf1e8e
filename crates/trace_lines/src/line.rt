// What the lines of a trace say.

/// How a write was answered.
#[derive(Clone, Copy, Debug, PartialEq, Eq)]
pub enum Answer {
    /// `v=N`: it was taken, and this is the version written.
    Done(u64),
    /// `conflict v=N`: another version is stored.
    Conflict(u64),
    /// `absent`: nothing is stored there.
    Absent,
    /// `exists`: something is stored there already.
    Exists,
}

/// How a Lease is written.
#[derive(Clone, Copy, Debug, PartialEq, Eq)]
pub enum Verb {
    Create,
    Update,
}

/// What is said behind the beat and the actor. Names and fixed words are texts of the line.
#[derive(Drop)]
pub enum Says<T> {
    Start,
    Crash,
    Stop,
    End,
    /// For how many beats a process stands still.
    Pause(u32),
    /// For how many beats the store stands still.
    Stall(u32),
    /// The version of the success.
    Lead(u64),
    /// A write of the election Lease: how it was answered, and the transitions written, 0 if it wasn't taken.
    Election(Verb, Answer, u32),
    /// A write of a node's Lease: the node.
    NodeLease(Verb, T, Answer),
    /// A node's status: the node, and whether the status is True.
    Status(T, bool, Answer),
    /// A write of the script: `node/NAME`, `lease/NAMESPACE/NAME` or `pod/NAMESPACE/NAME`, and the version.
    Put(T, u64),
    Remove(T, u64),
    /// A node was marked Unknown: the node and the reason.
    Unknown(T, T, Answer),
    /// All zones are in full disruption, or no longer.
    Mode(bool),
    /// `REGION/ZONE`, the state, and how many taints are queued in 1,000 s.
    Zone(T, T, u32),
    /// A queued taint: the node, and `not-ready` or `unreachable`.
    Taint(T, T, Answer),
    /// A swap to this taint.
    Swap(T, T, Answer),
    Untaint(T, Answer),
    /// `NAMESPACE/NAME`, and the time at which the pod was due.
    Evict(T, T, Answer),
}

/// A line of a trace behind the first: the beat, who acts, and what is said. The text of a name is a `T`.
#[derive(Drop)]
pub struct Line<T> {
    pub beat: u32,
    pub actor: T,
    pub says: Says<T>,
}
