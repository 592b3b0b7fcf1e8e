// The JSON on calm spans.
ghost use Rattle.std.specs.Prelude.{◌≡◌, ◌∷◌, [], ◌++◌, ◌*◌, IfOk, OnOk, map};
ghost use Rattle.lens_json.specs.Members.{data_of, named};
ghost use Rattle.lens_json.specs.Parts.{part_of, what_of};
ghost use Rattle.lens_room.specs.MarginJson.{number_if};
ghost use Rattle.lens_calm.specs.Objects as spec;
ghost use Rattle.lens_calm.specs.Settings.{AreGiven};

use crate::settings::Settings;
use kube_base::NoMemory;
use lens_bounds::{Election, Marked, Span, Tainted};
use lens_json::{Member, Object, Part, Value, What};
use lens_room::by_flags::is_renew_deadline;
use lens_room::margin_json::{member, slack, stall};
use std::alloc::Global;

/// Adds a member.
pub(crate) fn add_part<'a>(
    parts: &mut Vec<Part<'a>>,
    name: &'a [u8],
    what: What<'a>,
) -> Result<(), NoMemory>
    ensures { OnOk result (map part_of parts.new.items ≡ map part_of parts.old.items ++ (name.now, what_of what.entry) ∷ []) }
{
    parts.push(Part { name, what })?;
    Ok(())
}

/// Adds members behind those that are there.
pub(crate) fn add_all<'a>(parts: &mut Vec<Part<'a>>, more: Vec<Part<'a>>) -> Result<(), NoMemory>
    ensures { OnOk result (map part_of parts.new.items ≡ map part_of parts.old.items ++ map part_of more.entry.items) }
{
    parts.extend(more)?;
    Ok(())
}

/// A member that is a value.
pub(crate) fn part<'a>(name: &'a [u8], value: Value<'a>) -> Part<'a>
    ensures { part_of result ≡ (name.now, data_of value.entry) }
{
    Part {
        name,
        what: What::Value(value),
    }
}

fn part_of_what<'a>(name: &'a [u8], what: What<'a>) -> Part<'a>
    ensures { part_of result ≡ (name.now, what_of what.entry) }
{
    Part { name, what }
}

fn span_what<'a>(alloc: Global, span: Option<Span>) -> Result<What<'a>, NoMemory>
    ensures { IfOk result (λ what. what_of what ≡ spec.span_data span) }
{
    match span {
        None => Ok(What::Value(Value::Nothing)),
        Some(span) => {
            let members = vec![in alloc;
                member(b"leastMillis", Value::Large(span.least)),
                member(b"mostMillis", Value::Large(span.most)),
            ]?;
            Ok(What::Object(Object { members }))
        }
    }
}

fn marked_what<'a>(alloc: Global, marked: Option<Marked>) -> Result<What<'a>, NoMemory>
    ensures { IfOk result (λ what. what_of what ≡ spec.marked_data marked) }
{
    match marked {
        None => Ok(What::Value(Value::Nothing)),
        Some(marked) => {
            let members = vec![in alloc;
                member(
                    b"leastMillis",
                    slack(marked.least.added, marked.least.taken)
                ),
                member(b"mostMillis", Value::Large(marked.most)),
            ]?;
            Ok(What::Object(Object { members }))
        }
    }
}

fn tainted_what<'a>(alloc: Global, tainted: Option<Tainted>) -> Result<What<'a>, NoMemory>
    ensures { IfOk result (λ what. what_of what ≡ spec.tainted_data tainted) }
{
    match tainted {
        None => Ok(What::Value(Value::Nothing)),
        Some(tainted) => {
            let members = vec![in alloc;
                member(
                    b"leastMillis",
                    slack(tainted.least.added, tainted.least.taken)
                ),
                member(b"mostMillis", Value::Large(tainted.most)),
                member(b"mostWithTokenMillis", Value::Large(tainted.with_token)),
            ]?;
            Ok(What::Object(Object { members }))
        }
    }
}

/// Which settings were taken.
#[tactic(auto, unfolding(crate::specs::Objects::taken_members))]
pub(crate) fn taken_parts<'a>(alloc: Global, s: Settings) -> Result<Vec<Part<'a>>, NoMemory>
    requires { AreGiven s }
    ensures { IfOk result (λ parts. map part_of parts.items ≡ spec.taken_members s) }
{
    let parts = vec![in alloc;
        part(b"beatMillis", Value::Number(u64::from(s.flags.beat_millis))),
        part(b"leastDelayMillis", Value::Number(s.near_millis())),
        part(b"delayMillis", Value::Number(s.far_millis())),
        part(b"skewPpm", Value::Number(u64::from(s.flags.skew_ppm))),
    ]?;
    Ok(parts)
}

/// The timings of the controllers.
#[tactic(auto, unfolding(crate::specs::Objects::timing_members))]
pub(crate) fn timing_parts<'a>(alloc: Global, s: Settings) -> Result<Vec<Part<'a>>, NoMemory>
    ensures { IfOk result (λ parts. map part_of parts.items ≡ spec.timing_members s) }
{
    let retry = s.flags.retry_millis;
    let lease = u64::from(s.flags.lease_seconds) * 1000;
    let is_renew_deadline = is_renew_deadline(s.flags.timeout_millis);
    let parts = vec![in alloc;
        part(b"leaseMillis", Value::Number(lease)),
        part(
            b"timeoutMillis",
            Value::Number(u64::from(s.flags.timeout()))
        ),
        part(b"timeoutIsRenewDeadline", Value::Truth(is_renew_deadline)),
        part(b"retryMillis", Value::Number(u64::from(retry))),
        part(
            b"waitMillis",
            Value::Number(u64::from(s.wait_millis.unwrap_or(retry)))
        ),
    ]?;
    Ok(parts)
}

/// The bounds of a leader.
#[tactic(auto, unfolding(crate::specs::Objects::election_members))]
pub(crate) fn election_parts<'a>(alloc: Global, e: Election) -> Result<Vec<Part<'a>>, NoMemory>
    ensures { IfOk result (λ parts. map part_of parts.items ≡ spec.election_members e) }
{
    let crash = span_what(alloc, e.crash)?;
    let stop = span_what(alloc, e.stop)?;
    let parts = vec![in alloc;
        part_of_what(b"crash", crash),
        part_of_what(b"stop", stop),
        part(b"actsOnMillis", stall(e.acts_on)),
        part(b"calmMillis", stall(e.leads)),
        part(b"staysFromMillis", stall(e.stays_from)),
    ]?;
    Ok(parts)
}

/// The bounds of a node.
#[tactic(auto, unfolding(crate::specs::Objects::node_members))]
pub(crate) fn node_parts<'a>(
    alloc: Global,
    ahead: u32,
    marked: Option<Marked>,
    tainted: Option<Tainted>,
) -> Result<Vec<Part<'a>>, NoMemory>
    ensures { IfOk result (λ parts. map part_of parts.items ≡ spec.node_members ahead marked tainted) }
{
    let marked = marked_what(alloc, marked)?;
    let tainted = tainted_what(alloc, tainted)?;
    let parts = vec![in alloc;
        part_of_what(b"unknown", marked),
        part(b"ahead", Value::Number(u64::from(ahead))),
        part_of_what(b"taint", tainted),
    ]?;
    Ok(parts)
}

/// The bounds of pods that tolerate the taint for so many seconds.
#[tactic(auto, unfolding(crate::specs::Objects::pod_members))]
pub(crate) fn pod_parts<'a>(
    alloc: Global,
    seconds: u32,
    gone: Option<Tainted>,
) -> Result<Vec<Part<'a>>, NoMemory>
    ensures { IfOk result (λ parts. map part_of parts.items ≡ spec.pod_members seconds gone) }
{
    let gone = tainted_what(alloc, gone)?;
    let parts = vec![in alloc;
        part(b"tolerationSeconds", Value::Number(u64::from(seconds))),
        part_of_what(b"gone", gone),
    ]?;
    Ok(parts)
}

/// Whether a leader stays, and whether two are ruled out.
#[tactic(auto, unfolding(crate::specs::Objects::end_members))]
pub(crate) fn end_parts<'a>(
    alloc: Global,
    stays: bool,
    safe: bool,
) -> Result<Vec<Part<'a>>, NoMemory>
    ensures { IfOk result (λ parts. map part_of parts.items ≡ spec.end_members stays safe) }
{
    let parts = vec![in alloc;
        part(b"stays", Value::Truth(stays)),
        part(b"safe", Value::Truth(safe)),
    ]?;
    Ok(parts)
}

fn least_in(span: Option<Span>) -> Option<u128>
    ensures { result ≡ spec.least_in span }
{
    match span {
        None => None,
        Some(span) => Some(span.least),
    }
}

fn most_in(span: Option<Span>) -> Option<u128>
    ensures { result ≡ spec.most_in span }
{
    match span {
        None => None,
        Some(span) => Some(span.most),
    }
}

/// The members of a controller of this name.
#[tactic(auto, unfolding(crate::specs::Objects::leader_members))]
pub(crate) fn leader_members<'a>(
    alloc: Global,
    name: &'a [u8],
    e: Election,
) -> Result<Vec<Member<'a>>, NoMemory>
    ensures { IfOk result (λ members. map named members.items ≡ spec.leader_members name.now e) }
{
    let members = vec![in alloc;
        Member::text(b"name", name),
        member(b"crashLeastMillis", stall(least_in(e.crash))),
        member(b"crashMostMillis", stall(most_in(e.crash))),
        member(b"stopLeastMillis", stall(least_in(e.stop))),
        member(b"stopMostMillis", stall(most_in(e.stop))),
        member(b"actsOnMillis", stall(e.acts_on)),
        member(b"calmMillis", stall(e.leads)),
        member(b"staysFromMillis", stall(e.stays_from)),
    ]?;
    Ok(members)
}

/// The members of pods that tolerate the taint for so many seconds.
#[tactic(auto, unfolding(crate::specs::Objects::gone_members))]
pub(crate) fn gone_members<'a>(
    alloc: Global,
    seconds: u64,
    gone: Option<Tainted>,
) -> Result<Vec<Member<'a>>, NoMemory>
    ensures { IfOk result (λ members. map named members.items ≡ spec.gone_members seconds gone) }
{
    let time = Member::number(b"tolerationSeconds", seconds);
    match gone {
        None => Ok(vec![in alloc;
            time,
            member(b"leastMillis", Value::Nothing),
            member(b"mostMillis", Value::Nothing),
            member(b"mostWithTokenMillis", Value::Nothing),
        ]?),
        Some(t) => Ok(vec![in alloc;
            time,
            member(b"leastMillis", slack(t.least.added, t.least.taken)),
            member(b"mostMillis", Value::Large(t.most)),
            member(b"mostWithTokenMillis", Value::Large(t.with_token)),
        ]?),
    }
}
