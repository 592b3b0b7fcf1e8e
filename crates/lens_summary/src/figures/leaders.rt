// The trace itself, and the spans in which nobody acts.
ghost use Rattle.std.specs.Prelude.{◌≡◌, IfOk, map};
ghost use Rattle.lens_json.specs.Members.{data_of, named};
ghost use Rattle.lens_summary.specs.Figures as spec;

use crate::spread::{longest, total};
use kube_base::NoMemory;
use lens_json::{Member, Value};
use lens_terms::Span;
use std::alloc::Global;
use trace_lines::Header;

/// The members on the trace itself, by its header and the word for its premise.
pub(crate) fn header_members<'a>(
    alloc: Global,
    header: Header,
    premise: &'a [u8],
    overlap: Option<u64>,
    beats: u32,
) -> Result<Vec<Member<'a>>, NoMemory>
    ensures { IfOk result (λ members. map named members.items ≡ spec.header_members header premise.now overlap beats) }
{
    let members = vec![in alloc;
        Member::number(b"beatMillis", u64::from(header.beat_millis)),
        Member::number(b"lastBeat", u64::from(header.end)),
        Member::text(b"premise", premise),
        line_member(b"twoLeadFromLine", overlap),
        Member::number(b"twoLeadBeats", u64::from(beats)),
    ]?;
    Ok(members)
}

fn line_member<'a>(name: &'a [u8], line: Option<u64>) -> Member<'a>
    ensures { named result ≡ (name.now, spec.number_if line) }
{
    Member {
        name,
        value: line_value(line),
    }
}

fn line_value<'a>(line: Option<u64>) -> Value<'a>
    ensures { data_of result ≡ spec.number_if line }
{
    match line {
        Some(line) => Value::Number(line),
        None => Value::Nothing,
    }
}

/// The members on the spans in which nobody acts: how many, the longest, and all together.
pub(crate) fn span_members<'a>(alloc: Global, spans: &[Span]) -> Result<Vec<Member<'a>>, NoMemory>
    ensures { IfOk result (λ members. map named members.items ≡ spec.span_members spans.now) }
{
    let members = vec![in alloc;
        Member::number(b"count", spans.len() as u64),
        Member::number(b"longest", u64::from(longest(spans))),
        Member::number(b"sum", u64::from(total(spans))),
    ]?;
    Ok(members)
}
