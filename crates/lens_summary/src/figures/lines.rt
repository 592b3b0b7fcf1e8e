// The objects of lines: what became of zones and nodes, and the pods that were evicted.
ghost use Rattle.std.specs.Prelude.{◌≡◌, ◌++◌, IfOk, OnOk, codes, map, option_to_list};
ghost use Rattle.lens_json.specs.Members.{data_of, named};
ghost use Rattle.lens_json.specs.Parts.{members_in};
ghost use Rattle.trace_lines.specs.Reads.{seen};
ghost use Rattle.lens_summary.specs.FigureLines as spec;

use crate::figures::objects::add_object;
use crate::nodes::change_in;
use crate::pods::eviction_in;
use crate::subject::Subject;
use crate::zones::zone_in;
use kube_base::NoMemory;
use lens_json::{Member, Object, Value};
use std::alloc::Global;
use trace_lines::Line;

/// An object for each line that tells of a subject, in their order.
pub(crate) fn objects_in<'a>(
    alloc: Global,
    subject: Subject,
    lines: &[Line<&'a [u8]>],
) -> Result<Vec<Object<'a>>, NoMemory>
    ensures { IfOk result (λ objects. map members_in objects.items ≡ spec.told subject (map seen lines.now)) }
{
    let mut objects = Vec::new(alloc);
    for line in lines {
        add_line(&mut objects, alloc, subject, line)?;
    }
    Ok(objects)
}

/// Adds the object of a line, if it tells of the subject.
fn add_line<'a>(
    objects: &mut Vec<Object<'a>>,
    alloc: Global,
    subject: Subject,
    line: &Line<&'a [u8]>,
) -> Result<(), NoMemory>
    ensures { OnOk result (map members_in objects.new.items
        ≡ map members_in objects.old.items ++ option_to_list (spec.told_by subject (seen line.now))) }
{
    match subject {
        Subject::Zones => add_zone(objects, alloc, line),
        Subject::Nodes => add_node(objects, alloc, line),
        Subject::Pods => add_pod(objects, alloc, line),
    }
}

/// Adds the object of the zone that a line tells of, if it does.
fn add_zone<'a>(
    objects: &mut Vec<Object<'a>>,
    alloc: Global,
    line: &Line<&'a [u8]>,
) -> Result<(), NoMemory>
    ensures { OnOk result (map members_in objects.new.items ≡ map members_in objects.old.items ++ option_to_list (spec.zone_by (seen line.now))) }
{
    match zone_in(&line.says) {
        Some((zone, state, rate)) => {
            let members = zone_members(alloc, line, zone, state, rate)?;
            add_object(objects, members)
        }
        None => Ok(()),
    }
}

fn zone_members<'a>(
    alloc: Global,
    line: &Line<&'a [u8]>,
    zone: &'a [u8],
    state: &'a [u8],
    rate: u32,
) -> Result<Vec<Member<'a>>, NoMemory>
    ensures { IfOk result (λ members. map named members.items ≡ spec.zone_members (seen line.now) (zone.now, state.now, rate)) }
{
    let members = vec![in alloc;
        Member::text(b"zone", zone),
        Member::number(b"since", u64::from(line.beat)),
        Member::text(b"state", state),
        Member::number(b"rate", u64::from(rate)),
        Member::text(b"by", line.actor),
    ]?;
    Ok(members)
}

/// Adds the object of the node that a line changes, if it does.
fn add_node<'a>(
    objects: &mut Vec<Object<'a>>,
    alloc: Global,
    line: &Line<&'a [u8]>,
) -> Result<(), NoMemory>
    ensures { OnOk result (map members_in objects.new.items ≡ map members_in objects.old.items ++ option_to_list (spec.node_by (seen line.now))) }
{
    match change_in(&line.says) {
        Some((node, change, reason)) => {
            let members = node_members(alloc, line, node, change, reason)?;
            add_object(objects, members)
        }
        None => Ok(()),
    }
}

fn node_members<'a>(
    alloc: Global,
    line: &Line<&'a [u8]>,
    node: &'a [u8],
    change: &'static [u8],
    reason: &'a [u8],
) -> Result<Vec<Member<'a>>, NoMemory>
    ensures { IfOk result (λ members. map named members.items ≡ spec.node_members (seen line.now) (node.now, change.now, reason.now)) }
{
    let members = vec![in alloc;
        Member::text(b"node", node),
        Member::number(b"since", u64::from(line.beat)),
        Member::text(b"change", change),
        reason_member(reason),
        Member::text(b"by", line.actor),
    ]?;
    Ok(members)
}

fn reason_member<'a>(reason: &'a [u8]) -> Member<'a>
    ensures { named result ≡ (codes "reason", spec.reason reason.now) }
{
    Member {
        name: b"reason",
        value: reason_value(reason),
    }
}

/// A reason, if there is one.
fn reason_value<'a>(reason: &'a [u8]) -> Value<'a>
    ensures { data_of result ≡ spec.reason reason.now }
{
    let none: &[u8] = b"-";
    if reason == none {
        Value::Nothing
    } else {
        Value::Text(reason)
    }
}

/// Adds the object of the pod that a line evicts, if it does.
fn add_pod<'a>(
    objects: &mut Vec<Object<'a>>,
    alloc: Global,
    line: &Line<&'a [u8]>,
) -> Result<(), NoMemory>
    ensures { OnOk result (map members_in objects.new.items ≡ map members_in objects.old.items ++ option_to_list (spec.pod_by (seen line.now))) }
{
    match eviction_in(&line.says) {
        Some((pod, due)) => {
            let members = pod_members(alloc, line, pod, due)?;
            add_object(objects, members)
        }
        None => Ok(()),
    }
}

fn pod_members<'a>(
    alloc: Global,
    line: &Line<&'a [u8]>,
    pod: &'a [u8],
    due: &'a [u8],
) -> Result<Vec<Member<'a>>, NoMemory>
    ensures { IfOk result (λ members. map named members.items ≡ spec.pod_members (seen line.now) (pod.now, due.now)) }
{
    let members = vec![in alloc;
        Member::text(b"pod", pod),
        Member::text(b"due", due),
        Member::number(b"evicted", u64::from(line.beat)),
        Member::text(b"by", line.actor),
    ]?;
    Ok(members)
}
