// A sink that never fails.
ghost use Rattle.byte_edge.specs.Bytes.Taken.{Untold};

use crate::{Failed, Sink};

/// Discards all bytes. It tells nothing, and never fails.
#[derive(Clone, Copy, Debug, PartialEq, Eq)]
pub struct CalmSink;

impl CalmSink {
    /// A sink.
    pub fn new() -> CalmSink {
        CalmSink
    }
}

impl Sink for CalmSink {
    ghost taken = { λ _. Untold };

    ghost faults = { λ _. 0 };

    fn give(&mut self, bytes: &[u8]) -> Result<usize, Failed> {
        Ok(bytes.len())
    }
}
