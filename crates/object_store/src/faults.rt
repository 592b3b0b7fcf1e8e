// How the store refuses, and how a status is posted.
use kube_base::Version;

/// Why a call on the store wrote nothing. A conflict tells the version that is stored.
#[derive(Clone, Copy, Debug, PartialEq, Eq)]
pub enum StoreFault {
    Absent,
    Exists,
    Conflict(Version),
    NoMemory,
}

/// What posting a status did.
#[derive(Clone, Copy, Debug, PartialEq, Eq)]
pub enum Posted {
    Done(Version),
    /// The same status was posted less than 300 s ago: nothing was written.
    Unchanged,
}
