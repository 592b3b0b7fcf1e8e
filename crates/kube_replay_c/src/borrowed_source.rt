// A source over borrowed bytes.
use byte_edge::{Failed, Source};

/// Bytes that are borrowed. It tells them and never fails.
#[derive(Clone, Copy, Debug)]
pub(crate) struct BorrowedSource<'a> {
    left: &'a [u8],
}

impl<'a> BorrowedSource<'a> {
    ghost use Rattle.std.specs.Prelude.{◌≡◌};

    /// A source of these bytes.
    pub(crate) fn new(bytes: &'a [u8]) -> BorrowedSource<'a>
        ensures { result.left.now ≡ bytes.now }
    {
        BorrowedSource { left: bytes }
    }
}

impl Source for BorrowedSource<'_> {
    ghost use Rattle.std.specs.Prelude.{Some};

    ghost left = { λ s. Some s.left.now };

    ghost faults = { λ _. 0 };

    fn take(&mut self, into: &mut [u8]) -> Result<usize, Failed> {
        let rest = self.left;
        let size = into.len().min(rest.len());
        let (front, after) = rest.split_at(size);
        into[..size].copy_from_slice(front);
        self.left = after;
        Ok(size)
    }
}
