// What the words and the input give.
ghost use Rattle.std.specs.Prelude.{◌≡◌, Some, map, string_bytes};
ghost use Rattle.replay_top.specs.Claims.{Claims, IsWell};
ghost use Rattle.replay_top.specs.Outcome.{outcome};
ghost use Rattle.kube_replay_c.specs.Calls.{EndsIn};
ghost use Rattle.kube_replay_c.specs.Exits.{exit_status_of};

use crate::borrowed_source::BorrowedSource;
use byte_edge::BorrowedSink;
use kube_base::Steps;
use replay_top::run;
use run_edge::Status;
use std::alloc::Global;
use std::sync::ledger::Blank;
use zone_state::{Policies, full, partial};

/// Want of memory. It is the exit status of `Status::OutOfMemory`, and of a text that no memory could hold.
pub(crate) const OUT_OF_MEMORY: u32 = 5;

/// An exit status, how many bytes were put into the buffer, and how many there are in all.
#[derive(Clone, Copy, Debug, PartialEq, Eq)]
pub(crate) struct Answer {
    pub status: u32,
    pub put: usize,
    pub whole: usize,
}

/// An answer with nothing written.
pub(crate) fn nothing(status: u32) -> Answer
    ensures { result ≡ record { status = status; put = 0; whole = 0 } }
{
    Answer {
        status,
        put: 0,
        whole: 0,
    }
}

/// Runs on the input, and writes into the buffer.
pub(crate) fn run_in_memory(
    alloc: Global,
    words: &Vec<String>,
    input: &[u8],
    buffer: &mut [u8],
) -> Answer
    ensures text { EndsIn (outcome (map string_bytes words.now.items) input.now) buffer.old buffer.new result.put result.whole result.status }
    ensures claims { Claims (map string_bytes words.now.items) (Some input.now) }
    ensures well { result.status ≡ 0 → IsWell (map string_bytes words.now.items) (Some input.now) }
{
    let mut source = BorrowedSource::new(input);
    let mut sink = BorrowedSink::new(buffer);
    let mut steps = Steps::new(Blank::new(1));
    let status = run(
        alloc,
        words,
        &mut source,
        &mut sink,
        &Policies::new(partial, full),
        &mut steps,
    );
    Answer {
        status: exit_status(status),
        put: sink.put(),
        whole: sink.given(),
    }
}

/// The exit status of a run in memory, whose source doesn't fail, and whose sink fails only if no memory could hold the text.
fn exit_status(status: Status) -> u32
    ensures { result ≡ exit_status_of status }
{
    match status {
        Status::SinkFault => OUT_OF_MEMORY,
        _ => u32::from(run_edge::exit_status(status)),
    }
}
