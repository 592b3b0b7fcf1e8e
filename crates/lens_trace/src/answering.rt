// The answer to a trace's text.
ghost use Rattle.std.specs.Prelude.{◌≡◌, ◌≤◌, IfOk, map, filter_map};
ghost use Rattle.run_edge.specs.Outcome.{Reply, reply_of};
ghost use Rattle.trace_audit.specs.Entries.{lines_of};
ghost use Rattle.trace_lines.specs.Forms.{line_of};
ghost use Rattle.trace_lines.specs.Reads.{seen};
ghost use Rattle.lens_trace.specs.Traces as spec;
ghost use Rattle.lens_trace.specs.Traces.{Tells};

use crate::judging::{Judged, judge};
use crate::reading::read_lines;
use crate::trace::Trace;
use kube_base::NoMemory;
use run_edge::{Answer, refuse};
use std::alloc::Global;
use trace_audit::BAD_TRACE;
use trace_lines::{Header, cut, read_header};
use trace_writer::{add, add_number};

/// What is told of a trace.
pub trait Telling {
    /// What it is.
    ghost told: { Self → Tells };

    /// Tells it of a trace.
    fn tell(&self, alloc: Global, trace: &Trace<'_>) -> Result<Answer, NoMemory>
        requires { trace.now.header.end ≤ 604800000 }
        ensures { IfOk result (λ answer. reply_of answer ≡ told self.now trace.now.header (map seen trace.now.lines.now)) };
}

/// What is told of the trace that this text is, or its refusal.
#[tactic(auto, unfolding(crate::specs::Traces::trace_reply))]
pub fn answer_on<T: Telling>(alloc: Global, telling: &T, text: &[u8]) -> Result<Answer, NoMemory>
    ensures { IfOk result (λ answer. reply_of answer ≡ spec.trace_reply (T.told telling.now) text.now) }
{
    let judged = judge(alloc, text)?;
    let Some((head, rest)) = cut(text, b'\n') else {
        return refuse(alloc, BAD_TRACE, b"/1");
    };
    let Some(header) = read_header(head) else {
        return refuse(alloc, BAD_TRACE, b"/1");
    };
    answer_behind(alloc, telling, judged, header, rest)
}

/// The answer on the lines behind the first.
fn answer_behind<T: Telling>(
    alloc: Global,
    telling: &T,
    judged: Judged,
    header: Header,
    rest: &[u8],
) -> Result<Answer, NoMemory>
    requires { header.end ≤ 604800000 }
    ensures { IfOk result (λ answer. reply_of answer
        ≡ spec.answer_by (T.told telling.now) judged header (filter_map line_of (lines_of rest.now))) }
{
    let lines = read_lines(alloc, rest)?;
    match judged {
        Judged::Wrong(line) => refuse_line(alloc, line),
        Judged::IsTrace => telling.tell(
            alloc,
            &Trace {
                header,
                lines: &lines,
            },
        ),
    }
}

/// The answer that this line of a trace is wrong or missing.
fn refuse_line(alloc: Global, line: u64) -> Result<Answer, NoMemory>
    ensures { IfOk result (λ answer. reply_of answer ≡ spec.wrong_line line) }
{
    let mut path = Vec::new(alloc);
    add(&mut path, b"/")?;
    add_number(&mut path, line)?;
    refuse(alloc, BAD_TRACE, &path)
}
