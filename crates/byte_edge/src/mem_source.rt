// A source over memory that fails where it is told to.
ghost use Rattle.std.specs.Prelude.{◌≤◌, ◌<◌, vec_len};

use crate::{Failed, Source};

/// Bytes in memory. The calls of `take` whose numbers, from 0, stand in `fails` fail; the others give at most `chunk`
/// bytes.
#[derive(Debug, Drop)]
pub struct MemSource {
    bytes: Vec<u8>,
    position: usize,
    chunk: usize,
    fails: Vec<u64>,
    calls: u64,
    faults: u64,
    ghost chunk_is_some: { 0 < chunk },
    ghost position_within: { position ≤ vec_len bytes },
}

impl MemSource {
    ghost use Rattle.std.specs.Prelude.{◌≡◌, ◌<◌};
    ghost use Rattle.byte_edge.specs.Memory.{left_of, source_plan, calls_of_source, faults_of_source};

    /// A source of these bytes. Takes no memory.
    pub fn new(bytes: Vec<u8>, chunk: usize, fails: Vec<u64>) -> MemSource
        requires { 0 < chunk }
        ensures left { left_of result ≡ bytes.items }
        ensures plan { source_plan result ≡ record { chunk = chunk; fails = fails.items } }
        ensures calls { calls_of_source result ≡ 0 }
        ensures faults { faults_of_source result ≡ 0 }
    {
        MemSource {
            bytes,
            position: 0,
            chunk,
            fails,
            calls: 0,
            faults: 0,
        }
    }

    /// The bytes that are left.
    fn rest(&self) -> &[u8]
        ensures { result.now ≡ left_of self.now }
    {
        self.bytes.as_slice().split_at(self.position).1
    }
}

impl Source for MemSource {
    ghost use Rattle.std.specs.Prelude.{◌≡◌, ◌≤◌, ◌<◌, ◌-◌, ◌^◌, ◌↔◌, [], Some, length, take, OnErr, IfOk, IsErr};
    ghost use Rattle.byte_edge.specs.Bytes.{Rose, Took};
    ghost use Rattle.byte_edge.specs.Memory.{left_of, calls_of_source, faults_of_source, source_plan, taken_by, one_more};

    ghost left = { λ s. Some (left_of s) };

    ghost faults = { faults_of_source };

    fn take(&mut self, into: &mut [u8]) -> Result<usize, Failed>
        requires { 0 < length into.old }
        ensures taken { IfOk result (λ n. (n ≤ length into.new)
            × Took (Some (left_of self.old)) (Some (left_of self.new)) (take n into.new)) }
        ensures end { IfOk result (λ n. (n ≡ 0) ↔ (left_of self.old ≡ [])) }
        ensures kept { OnErr result (Some (left_of self.new) ≡ Some (left_of self.old)) }
        ensures counted { faults_of_source self.old ≤ faults_of_source self.new }
        ensures within { faults_of_source self.new ≤ 2 ^ 64 - 1 }
        ensures failed { IsErr result → Rose (faults_of_source self.old) (faults_of_source self.new) }
        ensures planned { result
            ≡ taken_by (source_plan self.old) (calls_of_source self.old) (length (left_of self.old)) (length into.old) }
        ensures plan { source_plan self.new ≡ source_plan self.old }
        ensures calls { calls_of_source self.new ≡ one_more (calls_of_source self.old) }
    {
        let call = self.calls;
        let faults = self.faults;
        self.calls = call.saturating_add(1);
        if self.fails.as_slice().contains(&call) {
            self.faults = faults.saturating_add(1);
            return Err(Failed);
        }
        let rest = self.rest();
        let size = self.chunk.min(into.len()).min(rest.len());
        let (front, _) = rest.split_at(size);
        into[..size].copy_from_slice(front);
        self.position += size;
        Ok(size)
    }
}
