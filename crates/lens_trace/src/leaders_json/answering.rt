// The answer to a trace.
ghost use Rattle.std.specs.Prelude.{◌≡◌, ◌+◌, ◌≤◌, IfOk, map};
ghost use Rattle.run_edge.specs.Outcome.{reply_of};
ghost use Rattle.lens_json.specs.Parts.{part_of};
ghost use Rattle.lens_terms.specs.Acting.{shown as stretch_shown};
ghost use Rattle.lens_terms.specs.Terms.{terms};
ghost use Rattle.lens_terms.specs.Together.{overlap as overlap_of};
ghost use Rattle.trace_lines.specs.Reads.{seen};
ghost use Rattle.lens_trace.specs.LeadersJson as spec;

use crate::answering::{Telling, answer_on};
use crate::leaders_json::lasting::Lasting;
use crate::leaders_json::parts::{overlap_in, spans_in, terms_in};
use crate::object::object_answer;
use crate::trace::Trace;
use kube_base::NoMemory;
use lens_json::{Part, What};
use lens_terms::{Stretch, leaderless, overlap, stretches_of, terms_of};
use run_edge::{Answer, Verdict};
use std::alloc::Global;

/// The terms of the trace that these bytes are, the spans in which nobody acts, and whether two ever act at once, as one JSON object; or its
/// refusal.
pub fn leaders_in(alloc: Global, input: &[u8]) -> Result<Answer, NoMemory>
    ensures { IfOk result (λ answer. reply_of answer ≡ spec.leaders_reply input.now) }
{
    answer_on(alloc, &Leaders, input)
}

/// Who leads in a trace.
struct Leaders;

impl Telling for Leaders {
    ghost told = { λ leaders header ls. spec.leaders header ls };

    fn tell(&self, alloc: Global, trace: &Trace<'_>) -> Result<Answer, NoMemory> {
        let acting = stretches_of(alloc, trace.header.end + 1, trace.lines)?;
        let parts = parts(alloc, trace, &acting)?;
        object_answer(alloc, verdict(&acting), &parts)
    }
}

/// The members of the object, by the stretches in which a leader acts.
#[tactic(auto, using(crate::proofs::OverlapLaws::leaderless_shown))]
fn parts<'a>(
    alloc: Global,
    trace: &Trace<'a>,
    acting: &[Stretch<&'a [u8]>],
) -> Result<[Part<'a>; 3], NoMemory>
    requires { trace.now.header.end ≤ 604800000 }
    ensures { IfOk result (λ parts. map part_of parts
        ≡ spec.leaders_members (trace.now.header.end + 1) (terms 2 (map seen trace.now.lines.now)) (map stretch_shown acting.now)) }
{
    let stop = trace.header.end + 1;
    let found = terms_of(alloc, trace.lines)?;
    let spans = leaderless(alloc, stop, acting)?;
    let terms = terms_in(alloc, stop, Lasting::Untold, &found)?;
    let nobody = spans_in(alloc, &spans)?;
    let what = overlap_in(alloc, acting)?;
    Ok([
        Part {
            name: b"terms",
            what: What::List(terms),
        },
        Part {
            name: b"nobody",
            what: What::List(nobody),
        },
        Part {
            name: b"overlap",
            what,
        },
    ])
}

fn verdict(acting: &[Stretch<&[u8]>]) -> Verdict
    ensures { result ≡ spec.verdict_by (overlap_of (map stretch_shown acting.now)) }
{
    match overlap(acting) {
        Some(_) => Verdict::Unsafe,
        None => Verdict::Safe,
    }
}
