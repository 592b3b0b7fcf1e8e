// Text that waits for the sink.
use byte_edge::{Failed, Sink};
use std::alloc::Global;

/// Text that waits for the sink. It fails only if memory runs out.
#[derive(Debug, Drop)]
pub(crate) struct Buffer {
    pub(crate) text: Vec<u8>,
    faults: u64,
}

impl Buffer {
    ghost use Rattle.std.specs.Prelude.{◌≡◌, []};

    /// No text. Takes no memory.
    pub(crate) fn new(alloc: Global) -> Buffer
        ensures { result.text.items ≡ [] }
    {
        Buffer {
            text: Vec::new(alloc),
            faults: 0,
        }
    }
}

impl Sink for Buffer {
    ghost use Rattle.byte_edge.specs.Bytes.Taken.{Known};

    ghost taken = { λ b. Known b.text.items };

    ghost faults = { λ b. b.faults };

    fn give(&mut self, bytes: &[u8]) -> Result<usize, Failed> {
        let faults = self.faults;
        match self.text.extend_from_slice(bytes) {
            Ok(()) => Ok(bytes.len()),
            Err(_) => {
                self.faults = faults.saturating_add(1);
                Err(Failed)
            }
        }
    }
}
