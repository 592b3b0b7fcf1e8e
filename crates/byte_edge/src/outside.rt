// The two sides of the outside.
ghost use Rattle.std.specs.Prelude.{◌≡◌, ◌≤◌, ◌<◌, ◌-◌, ◌^◌, ◌↔◌, ℕ, List, [], Option, length, take, OnErr, IfOk, IfSome, IsErr};
ghost use Rattle.byte_edge.specs.Bytes.{Rose, Took, Gives, Taken};

/// A source or a sink has failed, and has counted it.
#[derive(Clone, Copy, Debug, PartialEq, Eq)]
pub struct Failed;

/// Bytes that come from outside.
pub trait Source {
    /// The bytes that are left, if the source tells them.
    ghost left: { Self → Option (List ℕ) };

    /// How often it has failed; the count stays at its last value.
    ghost faults: { Self → ℕ };

    /// Puts bytes at the front of `into` and returns how many; 0 is the end of input.
    fn take(&mut self, into: &mut [u8]) -> Result<usize, Failed>
        requires { 0 < length into.old }
        ensures taken { IfOk result (λ n. (n ≤ length into.new) × Took (left self.old) (left self.new) (take n into.new)) }
        ensures end { IfOk result (λ n. IfSome (left self.old) (λ bytes. (n ≡ 0) ↔ (bytes ≡ []))) }
        ensures kept { OnErr result (left self.new ≡ left self.old) }
        ensures counted { faults self.old ≤ faults self.new }
        ensures within { faults self.new ≤ 2 ^ 64 - 1 }
        ensures failed { IsErr result → Rose (faults self.old) (faults self.new) };
}

/// A place outside that bytes go to.
pub trait Sink {
    /// What the sink tells of the bytes that were taken.
    ghost taken: { Self → Taken };

    /// How often it has failed; the count stays at its last value.
    ghost faults: { Self → ℕ };

    /// Takes bytes from the front of `bytes` and returns how many, at least 1.
    fn give(&mut self, bytes: &[u8]) -> Result<usize, Failed>
        requires { 0 < length bytes.now }
        ensures given { IfOk result (λ n. (0 < n) × (n ≤ length bytes.now) × Gives (taken self.old) (taken self.new) (take n bytes.now)) }
        ensures kept { OnErr result (taken self.new ≡ taken self.old) }
        ensures counted { faults self.old ≤ faults self.new }
        ensures within { faults self.new ≤ 2 ^ 64 - 1 }
        ensures failed { IsErr result → Rose (faults self.old) (faults self.new) };
}
