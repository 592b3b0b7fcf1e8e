// What a tick is handed.
use kube_base::{Beat, Local, Wall};

/// What a controller's tick is handed: whether its watch is on, whether its requests pass, and the time.
///
/// `now` is the reading of the controller's own clock, `wall` its time of day.
#[derive(Clone, Copy, Debug, PartialEq, Eq)]
pub struct View {
    pub watch: bool,
    pub passes: bool,
    pub beat: Beat,
    pub now: Local,
    pub wall: Wall,
}
