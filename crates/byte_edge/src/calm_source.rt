// A source that never fails.
ghost use Rattle.std.specs.Prelude.{◌≤◌, vec_len};

use crate::{Failed, Source};

/// Bytes in memory. It tells them, and never fails.
#[derive(Debug, Drop)]
pub struct CalmSource {
    bytes: Vec<u8>,
    position: usize,
    ghost position_within: { position ≤ vec_len bytes },
}

impl CalmSource {
    ghost use Rattle.std.specs.Prelude.{◌≡◌};
    ghost use Rattle.byte_edge.specs.Calm.{left_of};

    /// A source of these bytes. Takes no memory.
    pub fn new(bytes: Vec<u8>) -> CalmSource
        ensures { left_of result ≡ bytes.items }
    {
        CalmSource { bytes, position: 0 }
    }

    /// The bytes that are left.
    fn rest(&self) -> &[u8]
        ensures { result.now ≡ left_of self.now }
    {
        self.bytes.as_slice().split_at(self.position).1
    }
}

impl Source for CalmSource {
    ghost use Rattle.std.specs.Prelude.{Some};
    ghost use Rattle.byte_edge.specs.Calm.{left_of};

    ghost left = { λ s. Some (left_of s) };

    ghost faults = { λ _. 0 };

    fn take(&mut self, into: &mut [u8]) -> Result<usize, Failed> {
        let rest = self.rest();
        let size = into.len().min(rest.len());
        let (front, _) = rest.split_at(size);
        into[..size].copy_from_slice(front);
        self.position += size;
        Ok(size)
    }
}
