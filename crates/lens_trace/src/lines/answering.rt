// The answer to a trace.
ghost use Rattle.std.specs.Prelude.{◌≡◌, IfOk, map};
ghost use Rattle.run_edge.specs.Outcome.{reply_of};
ghost use Rattle.trace_lines.specs.Reads.{seen};
ghost use Rattle.lens_trace.specs.LineLaws.{OneObjectALine, MembersInOrder};
ghost use Rattle.lens_trace.specs.Lines as spec;

use crate::answering::{Telling, answer_on};
use crate::lines::header::add_header;
use crate::lines::line::add_lines;
use crate::trace::Trace;
use kube_base::NoMemory;
use run_edge::{Answer, Verdict};
use std::alloc::Global;

/// Each line of the trace that these bytes are as a JSON object on a line of its own; or its refusal.
pub fn lines_in(alloc: Global, input: &[u8]) -> Result<Answer, NoMemory>
    ensures reply { IfOk result (λ answer. reply_of answer ≡ spec.lines_reply input.now) }

    // Cut at its line feeds the text is the objects, one for each line, and each has its members in one order.
    ensures lines { OneObjectALine }
    ensures order { MembersInOrder }
{
    answer_on(alloc, &Lines, input)
}

/// The lines of a trace.
struct Lines;

impl Telling for Lines {
    ghost told = { λ lines header ls. spec.objects header ls };

    fn tell(&self, alloc: Global, trace: &Trace<'_>) -> Result<Answer, NoMemory> {
        let mut text = Vec::new(alloc);
        add_header(&mut text, alloc, trace.header)?;
        add_lines(&mut text, alloc, trace.lines)?;
        Ok(Answer {
            verdict: Verdict::Done,
            text,
        })
    }
}
