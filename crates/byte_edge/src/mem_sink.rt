// A sink into memory that fails where it is told to.
ghost use Rattle.std.specs.Prelude.{◌≤◌, ◌<◌, vec_len, vec_capacity};

use crate::{Failed, Sink};
use kube_base::NoMemory;
use std::alloc::Global;

/// Holds at most `room` bytes. A call of `give` fails if its number, from 0, stands in `fails` or `room` bytes are
/// held; the others take at most `chunk` bytes.
#[derive(Debug, Drop)]
pub struct MemSink {
    bytes: Vec<u8>,
    room: usize,
    chunk: usize,
    fails: Vec<u64>,
    calls: u64,
    faults: u64,
    ghost chunk_is_some: { 0 < chunk },
    ghost room_taken: { room ≤ vec_capacity bytes },
    ghost held_within: { vec_len bytes ≤ room },
}

impl MemSink {
    ghost use Rattle.std.specs.Prelude.{◌≡◌, ◌<◌, [], IfOk};
    ghost use Rattle.byte_edge.specs.Memory.{held_by, sink_plan, calls_of_sink, faults_of_sink};

    /// A sink that holds nothing. Takes memory for `room` bytes now, and none later.
    pub fn new(
        alloc: Global,
        room: usize,
        chunk: usize,
        fails: Vec<u64>,
    ) -> Result<MemSink, NoMemory>
        requires { 0 < chunk }
        ensures held { IfOk result (λ s. held_by s ≡ []) }
        ensures plan { IfOk result (λ s. sink_plan s ≡ record { room = room; chunk = chunk; fails = fails.items }) }
        ensures calls { IfOk result (λ s. calls_of_sink s ≡ 0) }
        ensures faults { IfOk result (λ s. faults_of_sink s ≡ 0) }
    {
        Ok(MemSink {
            bytes: Vec::with_capacity(alloc, room)?,
            room,
            chunk,
            fails,
            calls: 0,
            faults: 0,
        })
    }

    /// The bytes that it holds.
    pub fn held(&self) -> &[u8]
        ensures { result.now ≡ held_by self.now }
    {
        self.bytes.as_slice()
    }
}

impl Sink for MemSink {
    ghost use Rattle.std.specs.Prelude.{◌≡◌, ◌≤◌, ◌<◌, ◌-◌, ◌^◌, length, take, OnErr, IfOk, IsErr};
    ghost use Rattle.byte_edge.specs.Bytes.{Rose, Gives};
    ghost use Rattle.byte_edge.specs.Bytes.Taken.{Known};
    ghost use Rattle.byte_edge.specs.Memory.{held_by, calls_of_sink, faults_of_sink, sink_plan, given_to, one_more};

    ghost taken = { λ s. Known (held_by s) };

    ghost faults = { faults_of_sink };

    fn give(&mut self, bytes: &[u8]) -> Result<usize, Failed>
        requires { 0 < length bytes.now }
        ensures given { IfOk result (λ n. (0 < n) × (n ≤ length bytes.now)
            × Gives (Known (held_by self.old)) (Known (held_by self.new)) (take n bytes.now)) }
        ensures kept { OnErr result (Known (held_by self.new) ≡ Known (held_by self.old)) }
        ensures counted { faults_of_sink self.old ≤ faults_of_sink self.new }
        ensures within { faults_of_sink self.new ≤ 2 ^ 64 - 1 }
        ensures failed { IsErr result → Rose (faults_of_sink self.old) (faults_of_sink self.new) }
        ensures planned { result ≡ given_to (sink_plan self.old) (calls_of_sink self.old) (length (held_by self.old)) (length bytes.now) }
        ensures plan { sink_plan self.new ≡ sink_plan self.old }
        ensures calls { calls_of_sink self.new ≡ one_more (calls_of_sink self.old) }
    {
        let call = self.calls;
        let faults = self.faults;
        self.calls = call.saturating_add(1);
        let left = self.room - self.bytes.len();
        if left == 0 || self.fails.as_slice().contains(&call) {
            self.faults = faults.saturating_add(1);
            return Err(Failed);
        }
        let size = self.chunk.min(bytes.len()).min(left);
        match self.bytes.extend_from_slice(&bytes[..size]) {
            Ok(()) => Ok(size),
            Err(_) => unreachable!(),
        }
    }
}
