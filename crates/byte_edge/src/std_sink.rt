// A sink over std's writers.
use crate::{Failed, Sink};
use std::io::Write;

/// A writer whose failing calls are counted, among them those that take no byte. It doesn't tell its bytes.
#[derive(Debug, Drop)]
pub struct StdSink<W> {
    writer: W,
    faults: u64,
}

impl<W: Write> StdSink<W> {
    ghost use Rattle.std.specs.Prelude.{◌≡◌};

    /// A sink into the writer.
    pub fn new(writer: W) -> StdSink<W>
        ensures { result ≡ record { writer = writer; faults = 0 } }
    {
        StdSink { writer, faults: 0 }
    }
}

impl<W: Write> Sink for StdSink<W> {
    ghost use Rattle.byte_edge.specs.Bytes.Taken.{Untold};

    ghost taken = { λ _. Untold };

    ghost faults = { λ s. s.faults };

    fn give(&mut self, bytes: &[u8]) -> Result<usize, Failed> {
        let faults = self.faults;
        match self.writer.write(bytes) {
            Ok(given) if given > 0 => Ok(given),
            _ => {
                self.faults = faults.saturating_add(1);
                Err(Failed)
            }
        }
    }
}
