// The input that a source has.
ghost use Rattle.std.specs.Prelude.{◌≡◌, ℕ, List, Some, IfOk, IfErr};
ghost use Rattle.byte_edge.specs.Bytes.{Rose};
ghost use Rattle.run_edge.specs.Inputs.{IsInput, IsTooLong};

use byte_edge::{Source, TakeFault, take_all};
use std::alloc::Global;

/// The most bytes that an input may have.
const LARGEST: usize = 16_777_216;

/// Takes all that the source has, if there are no more bytes than an input may have; else one more, which is lost with them.
pub fn take_input<S: Source>(alloc: Global, source: &mut S) -> Result<Vec<u8>, TakeFault>
    ensures whole { (bytes : List ℕ) → S.left source.old ≡ Some bytes
        → IfOk result (λ taken. IsInput bytes (S.left source.new) taken.items) }
    ensures long { (bytes : List ℕ) → S.left source.old ≡ Some bytes
        → IfErr result (λ fault. fault ≡ TakeFault.TooLarge → IsTooLong bytes (S.left source.new)) }
    ensures failed { IfErr result (λ fault. fault ≡ TakeFault.Fault → Rose (S.faults source.old) (S.faults source.new)) }
{
    take_all(alloc, source, LARGEST)
}
