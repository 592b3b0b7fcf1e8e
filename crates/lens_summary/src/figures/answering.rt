// The answer to a trace.
ghost use Rattle.std.specs.Prelude.{◌≡◌, ◌+◌, ◌≤◌, IfOk, map};
ghost use Rattle.run_edge.specs.Outcome.{reply_of};
ghost use Rattle.lens_json.specs.Parts.{part_of, what_of};
ghost use Rattle.lens_terms.specs.Acting.{shown as stretch_shown};
ghost use Rattle.lens_terms.specs.Terms.{shown};
ghost use Rattle.trace_lines.specs.Reads.{seen};
ghost use Rattle.lens_summary.specs.Figures as spec;

use crate::figures::leaders::{header_members, span_members};
use crate::figures::lines::objects_in;
use crate::figures::totals::totals_in;
use crate::subject::Subject;
use crate::summary::overlap_line;
use kube_base::NoMemory;
use lens_json::{Object, Part, What};
use lens_terms::{Stretch, Term, beats_of_two, leaderless, stretches_of, terms_of};
use lens_trace::leaders_json::{Lasting, terms_in};
use lens_trace::lines::premise_word;
use lens_trace::{Telling, Trace, answer_on, object_answer};
use run_edge::{Answer, Verdict};
use std::alloc::Global;

/// What stands in the tables of `summary` on the trace that these bytes are, as one JSON object; or its refusal.
pub fn figures_of(alloc: Global, input: &[u8]) -> Result<Answer, NoMemory>
    ensures { IfOk result (λ answer. reply_of answer ≡ spec.figures_reply input.now) }
{
    answer_on(alloc, &Figures, input)
}

/// What a trace comes to.
struct Figures;

impl Telling for Figures {
    ghost told = { λ figures header ls. spec.figures header ls };

    fn tell(&self, alloc: Global, trace: &Trace<'_>) -> Result<Answer, NoMemory> {
        let parts = parts(alloc, trace)?;
        object_answer(alloc, Verdict::Done, &parts)
    }
}

/// The members of the object that `summary --json` prints of a trace. Times are in beats.
pub fn parts<'a>(alloc: Global, trace: &Trace<'a>) -> Result<[Part<'a>; 7], NoMemory>
    requires { trace.now.header.end ≤ 604800000 }
    ensures { IfOk result (λ parts. map part_of parts ≡ spec.members_on trace.now.header (map seen trace.now.lines.now)) }
{
    let found = terms_of(alloc, trace.lines)?;
    let acting = stretches_of(alloc, trace.header.end + 1, trace.lines)?;
    parts_by(alloc, trace, &found, &acting)
}

/// The same, by the terms of the trace and the stretches in which a leader acts.
#[tactic(auto, using(crate::proofs::StepLaws::leaderless_shown))]
fn parts_by<'a>(
    alloc: Global,
    trace: &Trace<'a>,
    found: &[Term<&'a [u8]>],
    acting: &[Stretch<&'a [u8]>],
) -> Result<[Part<'a>; 7], NoMemory>
    requires { trace.now.header.end ≤ 604800000 }
    ensures { IfOk result (λ parts. map part_of parts
        ≡ spec.figure_members trace.now.header (trace.now.header.end + 1) (map shown found.now) (map stretch_shown acting.now) (map seen trace.now.lines.now)) }
{
    let Trace { header, lines } = *trace;
    let stop = header.end + 1;
    let spans = leaderless(alloc, stop, acting)?;
    let beats = beats_of_two(stop, acting);
    let premise = premise_word(header.premise);
    let trace = header_members(alloc, header, premise, overlap_line(acting), beats)?;
    let terms = terms_in(alloc, stop, Lasting::Told, found)?;
    let spread = span_members(alloc, &spans)?;
    let zones = objects_in(alloc, Subject::Zones, lines)?;
    let nodes = objects_in(alloc, Subject::Nodes, lines)?;
    let pods = objects_in(alloc, Subject::Pods, lines)?;
    let totals = totals_in(alloc, lines)?;
    Ok([
        part(b"header", What::Object(Object { members: trace })),
        part(b"terms", What::List(terms)),
        part(
            b"spansWithoutLeader",
            What::Object(Object { members: spread }),
        ),
        part(b"zones", What::List(zones)),
        part(b"nodes", What::List(nodes)),
        part(b"evictions", What::List(pods)),
        part(b"totals", What::List(totals)),
    ])
}

fn part<'a>(name: &'a [u8], what: What<'a>) -> Part<'a>
    ensures { part_of result ≡ (name.now, what_of what.entry) }
{
    Part { name, what }
}
