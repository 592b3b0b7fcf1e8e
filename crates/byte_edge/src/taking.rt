// All that a source has left, up to a limit.
ghost use Rattle.std.specs.Prelude.{◌≡◌, ◌≢◌, ◌≤◌, ◌<◌, ◌+◌, ◌-◌, ◌^◌, length, IfOk, IfErr, OnErr};
ghost use Rattle.byte_edge.specs.Bytes.{Rose, TakesPiece, TookAll, TookAtMost, IsTooLarge};

use crate::{Failed, Source};
use std::alloc::Global;
use thiserror::Error;

/// Why not all bytes were taken.
#[derive(Clone, Copy, Debug, PartialEq, Eq, Error)]
pub enum TakeFault {
    #[error("the source failed")]
    Fault,
    #[error("the input is longer than its limit")]
    TooLarge,
    #[error("out of memory")]
    NoMemory,
}

/// How many bytes are asked for at once.
const PIECE: usize = 65_536;

/// Takes all bytes up to the end of input, if there are at most `limit`. After a fault, more than `limit` bytes, or
/// out of memory, the source has lost the bytes taken so far, at most `limit + 1`.
pub fn take_all<S: Source>(
    alloc: Global,
    source: &mut S,
    limit: usize,
) -> Result<Vec<u8>, TakeFault>
    requires { limit + 1 < 2 ^ 64 }
    ensures all { IfOk result (λ v. TookAll (S.left source.old) (S.left source.new) v.items × (length v.items ≤ limit)) }
    ensures large { IfErr result (λ e. e ≡ TakeFault.TooLarge → IsTooLarge limit (S.left source.old) (S.left source.new)) }
    ensures lost { OnErr result (TookAtMost (limit + 1) (S.left source.old) (S.left source.new)) }
    ensures counted { S.faults source.old ≤ S.faults source.new }
    ensures failed { IfErr result (λ e. e ≡ TakeFault.Fault → Rose (S.faults source.old) (S.faults source.new)) }
{
    let mut bytes = Vec::new(alloc);
    let Ok(mut piece) = vec![in alloc; 0u8; PIECE] else {
        return Err(TakeFault::NoMemory);
    };
    'taking: while bytes.len() <= limit {
        let size = PIECE.min(limit + 1 - bytes.len());
        match take_piece(source, &mut piece[..size], &mut bytes) {
            Ok(0) => return Ok(bytes),
            Ok(_) => {}
            Err(fault) => return Err(fault),
        }
    }
    Err(TakeFault::TooLarge)
}

/// Takes a piece to the end of `bytes`, at most as long as `into`, and returns its length.
fn take_piece<S: Source>(
    source: &mut S,
    into: &mut [u8],
    bytes: &mut Vec<u8>,
) -> Result<usize, TakeFault>
    requires { 0 < length into.old }
    ensures piece { IfOk result (λ n. TakesPiece (S.left source.old) (S.left source.new) bytes.old.items bytes.new.items n) }
    ensures size { IfOk result (λ n. n ≤ length into.old) }
    ensures lost { OnErr result (TookAtMost (length into.old) (S.left source.old) (S.left source.new)) }
    ensures cause { IfErr result (λ e. e ≢ TakeFault.TooLarge) }
    ensures counted { S.faults source.old ≤ S.faults source.new }
    ensures failed { IfErr result (λ e. e ≡ TakeFault.Fault → Rose (S.faults source.old) (S.faults source.new)) }
{
    let taken = match source.take(into) {
        Ok(taken) => taken,
        Err(Failed) => return Err(TakeFault::Fault),
    };
    let (front, _) = into.split_at(taken);
    match bytes.extend_from_slice(front) {
        Ok(()) => Ok(taken),
        Err(_) => Err(TakeFault::NoMemory),
    }
}
