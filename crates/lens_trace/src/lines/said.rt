// The members of what a line says.
ghost use Rattle.std.specs.Prelude.{◌≡◌, ◌++◌, ◌∷◌, [], OnOk, codes, map};
ghost use Rattle.trace_lines.specs.Reads.{said};
ghost use Rattle.lens_json.specs.Members as member;
ghost use Rattle.lens_json.specs.Members.{named};
ghost use Rattle.lens_trace.specs.LineMembers as spec;

use crate::lines::members::{answer, number, text};
use kube_base::NoMemory;
use lens_json::Member;
use trace_lines::{Answer, Says, Verb};

/// Adds the members of what stands behind a line's kind.
pub(crate) fn add_said<'a>(
    members: &mut Vec<Member<'a>>,
    says: &Says<&'a [u8]>,
) -> Result<(), NoMemory>
    ensures { OnOk result (map named members.new.items ≡ map named members.old.items ++ spec.said_members (said says.now)) }
{
    match says {
        Says::Start => Ok(()),
        Says::Crash => Ok(()),
        Says::Stop => Ok(()),
        Says::End => Ok(()),
        Says::Pause(beats) => number(members, b"beats", u64::from(*beats)),
        Says::Stall(beats) => number(members, b"beats", u64::from(*beats)),
        Says::Lead(version) => number(members, b"v", *version),
        Says::Election(_, answer, transitions) => election(members, *answer, *transitions),
        Says::NodeLease(_, node, answer) => node_lease(members, node, *answer),
        Says::Status(node, ready, answer) => node_word(
            members,
            node,
            b"ready",
            truth(*ready),
            *answer,
        ),
        Says::Put(key, version) => write(members, key, *version),
        Says::Remove(key, version) => write(members, key, *version),
        Says::Unknown(node, reason, answer) => node_word(members, node, b"reason", reason, *answer),
        Says::Mode(on) => text(members, b"mode", mode(*on)),
        Says::Zone(place, state, rate) => zone(members, place, state, *rate),
        Says::Taint(node, taint, answer) => node_word(members, node, b"taint", taint, *answer),
        Says::Swap(node, taint, answer) => node_word(members, node, b"taint", taint, *answer),
        Says::Untaint(node, how) => {
            text(members, b"node", node)?;
            answer(members, *how)
        }
        Says::Evict(pod, due, answer) => evict(members, pod, due, *answer),
    }
}

/// The word behind the actor.
pub fn kind_word(says: &Says<&[u8]>) -> &'static [u8]
    ensures { result.now ≡ spec.kind_word (said says.now) }
{
    match says {
        Says::Start => b"start",
        Says::Crash => b"crash",
        Says::Stop => b"stop",
        Says::End => b"end",
        Says::Pause(_) => b"pause",
        Says::Stall(_) => b"stall",
        Says::Lead(_) => b"lead",
        Says::Election(verb, _, _) => verb_word(*verb),
        Says::NodeLease(verb, _, _) => verb_word(*verb),
        Says::Status(_, _, _) => b"status",
        Says::Put(_, _) => b"put",
        Says::Remove(_, _) => b"remove",
        Says::Unknown(_, _, _) => b"unknown",
        Says::Mode(_) => b"mode",
        Says::Zone(_, _, _) => b"zone",
        Says::Taint(_, _, _) => b"taint",
        Says::Swap(_, _, _) => b"swap",
        Says::Untaint(_, _) => b"untaint",
        Says::Evict(_, _, _) => b"evict",
    }
}

fn verb_word(verb: Verb) -> &'static [u8]
    ensures { result.now ≡ spec.verb_word verb }
{
    match verb {
        Verb::Create => b"create",
        Verb::Update => b"update",
    }
}

fn truth(ready: bool) -> &'static [u8]
    ensures { result.now ≡ spec.truth_word ready }
{
    if ready { b"True" } else { b"False" }
}

fn mode(on: bool) -> &'static [u8]
    ensures { result.now ≡ spec.mode_word on }
{
    if on { b"on" } else { b"off" }
}

/// `election v=N t=T`, or how it was refused
fn election<'a>(
    members: &mut Vec<Member<'a>>,
    how: Answer,
    transitions: u32,
) -> Result<(), NoMemory>
    ensures { OnOk result (map named members.new.items
        ≡ map named members.old.items ++ member.text (codes "object") (codes "election") ∷ spec.election_members how transitions) }
{
    text(members, b"object", b"election")?;
    match how {
        Answer::Done(version) => {
            number(members, b"v", version)?;
            number(members, b"t", u64::from(transitions))
        }
        Answer::Conflict(_) => answer(members, how),
        Answer::Absent => answer(members, how),
        Answer::Exists => answer(members, how),
    }
}

/// `nodelease NODE A`
fn node_lease<'a>(
    members: &mut Vec<Member<'a>>,
    node: &'a [u8],
    how: Answer,
) -> Result<(), NoMemory>
    ensures { OnOk result (map named members.new.items
        ≡ map named members.old.items ++ member.text (codes "object") (codes "nodelease") ∷ member.text (codes "node") node.now ∷ spec.answer_members how) }
{
    text(members, b"object", b"nodelease")?;
    text(members, b"node", node)?;
    answer(members, how)
}

/// `NODE WORD A`
fn node_word<'a>(
    members: &mut Vec<Member<'a>>,
    node: &'a [u8],
    name: &'a [u8],
    word: &'a [u8],
    how: Answer,
) -> Result<(), NoMemory>
    ensures { OnOk result (map named members.new.items
        ≡ map named members.old.items ++ member.text (codes "node") node.now ∷ member.text name.now word.now ∷ spec.answer_members how) }
{
    text(members, b"node", node)?;
    text(members, name, word)?;
    answer(members, how)
}

/// `KEY v=N`
fn write<'a>(members: &mut Vec<Member<'a>>, key: &'a [u8], version: u64) -> Result<(), NoMemory>
    ensures { OnOk result (map named members.new.items
        ≡ map named members.old.items ++ member.text (codes "key") key.now ∷ member.nat (codes "v") version ∷ []) }
{
    text(members, b"key", key)?;
    number(members, b"v", version)
}

/// `REGION/ZONE STATE rate=R`
fn zone<'a>(
    members: &mut Vec<Member<'a>>,
    place: &'a [u8],
    state: &'a [u8],
    rate: u32,
) -> Result<(), NoMemory>
    ensures { OnOk result (map named members.new.items
        ≡ map named members.old.items
        ++ member.text (codes "zone") place.now ∷ member.text (codes "state") state.now ∷ member.nat (codes "rate") rate ∷ []) }
{
    text(members, b"zone", place)?;
    text(members, b"state", state)?;
    number(members, b"rate", u64::from(rate))
}

/// `NAMESPACE/NAME due=TIME A`
fn evict<'a>(
    members: &mut Vec<Member<'a>>,
    pod: &'a [u8],
    due: &'a [u8],
    how: Answer,
) -> Result<(), NoMemory>
    ensures { OnOk result (map named members.new.items
        ≡ map named members.old.items ++ member.text (codes "pod") pod.now ∷ member.text (codes "due") due.now ∷ spec.answer_members how) }
{
    text(members, b"pod", pod)?;
    text(members, b"due", due)?;
    answer(members, how)
}
