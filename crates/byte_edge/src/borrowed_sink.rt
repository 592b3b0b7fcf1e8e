// A sink into a borrowed buffer.
ghost use Rattle.std.specs.Prelude.{◌≡◌};
ghost use Rattle.byte_edge.specs.Bytes.{over};

use crate::{Failed, Sink};

/// Keeps the first bytes of what is given in a borrowed buffer, as many as have room, and counts all of them. The bytes of the buffer
/// behind them stay. A call fails only if more than 2^64 - 1 bytes would have been given.
#[derive(Debug, Drop)]
pub struct BorrowedSink<'a> {
    buffer: &'a mut [u8],
    given: usize,
    faults: u64,
}

impl<'a> BorrowedSink<'a> {
    ghost use Rattle.std.specs.Prelude.{◌≡◌, length, min};
    ghost use Rattle.byte_edge.specs.Borrowed.{buffer_of, given_to_buffer};

    /// A sink that was given nothing. Takes no memory.
    pub fn new(buffer: &'a mut [u8]) -> BorrowedSink<'a>
        ensures borrow { result.buffer.ghost_name ≡ buffer.entry.ghost_name }
        ensures buffer { buffer_of result ≡ buffer.old }
        ensures given { given_to_buffer result ≡ 0 }
    {
        BorrowedSink {
            buffer,
            given: 0,
            faults: 0,
        }
    }

    /// How many bytes were given in all.
    pub fn given(&self) -> usize
        ensures { result ≡ given_to_buffer self.now }
    {
        self.given
    }

    /// How many of them are in the buffer.
    pub fn put(&self) -> usize
        ensures { result ≡ min (length (buffer_of self.now)) (given_to_buffer self.now) }
    {
        self.buffer.len().min(self.given)
    }
}

impl Sink for BorrowedSink<'_> {
    ghost use Rattle.byte_edge.specs.Bytes.Taken.{Over};

    ghost taken = { λ s. Over s.buffer.ghost_name s.buffer.now s.given };

    ghost faults = { λ s. s.faults };

    fn give(&mut self, bytes: &[u8]) -> Result<usize, Failed> {
        let faults = self.faults;
        let from = self.given;
        let Some(given) = from.checked_add(bytes.len()) else {
            self.faults = faults.saturating_add(1);
            return Err(Failed);
        };
        lay(self.buffer, from, bytes);
        self.given = given;
        Ok(bytes.len())
    }
}

/// Lays the bytes over the buffer's places from `from` on, as many as have room.
fn lay(buffer: &mut [u8], from: usize, bytes: &[u8])
    ensures { buffer.new ≡ over buffer.old from bytes.now }
{
    if from < buffer.len() {
        let size = bytes.len().min(buffer.len() - from);
        buffer[from..from + size].copy_from_slice(&bytes[..size]);
    }
}
