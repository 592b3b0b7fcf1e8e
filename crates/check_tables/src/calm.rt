// Runs over a source and a sink that never fail.
ghost use Rattle.std.specs.Prelude.{◌≡◌, ◌⊎◌, map, string_bytes};
ghost use Rattle.replay_top.specs.Outcome.{outcome};

use byte_edge::{CalmSink, CalmSource};
use kube_base::Steps;
use replay_top::run;
use run_edge::Status;
use std::alloc::Global;
use std::sync::ledger::Blank;
use zone_state::{Policies, full, partial};

/// How a run ends if neither its source nor its sink can fail: as the words and the bytes say, or out of memory.
pub(crate) fn ends_calmly(alloc: Global, words: &Vec<String>, bytes: Vec<u8>) -> Status
    ensures { (result ≡ Status.Answered (outcome (map string_bytes words.now.items) bytes.items).reply.verdict) ⊎ (result ≡ Status.OutOfMemory) }
{
    let mut source = CalmSource::new(bytes);
    let mut sink = CalmSink::new();
    let mut steps = Steps::new(Blank::new(1));
    run(
        alloc,
        words,
        &mut source,
        &mut sink,
        &Policies::new(partial, full),
        &mut steps,
    )
}
