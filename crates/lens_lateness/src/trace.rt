// A trace as its first line and what the others say.
ghost use Rattle.std.specs.Prelude.{◌≡◌, IfOk};
ghost use Rattle.lens_lateness.specs.Traces as spec;

use kube_base::NoMemory;
use lens_trace::read_lines;
use std::alloc::Global;
use trace_lines::{Header, Line, cut, read_header};

/// A trace: its first line, and what the others say.
#[derive(Drop)]
pub struct Trace<'a> {
    pub header: Header,
    pub lines: Vec<Line<&'a [u8]>>,
}

/// The trace of a text whose first line is that of a trace.
#[tactic(auto, unfolding(crate::specs::Traces::trace_of))]
pub(crate) fn trace_in<'a>(alloc: Global, text: &'a [u8]) -> Result<Option<Trace<'a>>, NoMemory>
    ensures { IfOk result (λ trace. spec.seen_in trace ≡ spec.trace_of text.now) }
{
    let Some((head, rest)) = cut(text, b'\n') else {
        return Ok(None);
    };
    let Some(header) = read_header(head) else {
        return Ok(None);
    };
    let lines = read_lines(alloc, rest)?;
    Ok(Some(Trace { header, lines }))
}
