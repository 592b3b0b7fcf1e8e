// The objects of evictions, with how late they were.
ghost use Rattle.std.specs.Prelude.{◌≡◌, ◌++◌, IfOk, OnOk, map, option_to_list};
ghost use Rattle.kube_base.specs.Times.{time_of};
ghost use Rattle.lens_json.specs.Members.{data_of, named};
ghost use Rattle.lens_json.specs.Parts.{members_in};
ghost use Rattle.trace_lines.specs.Reads.{seen};
ghost use Rattle.lens_lateness.specs.Figures as spec;

use crate::clocks::{own_time, true_time};
use crate::timing::Timing;
use kube_base::{NoMemory, read_time};
use lens_json::{Member, Object, Value};
use lens_summary::eviction_in;
use std::alloc::Global;
use trace_lines::Line;

/// An object for each eviction of some lines, in their order.
pub(crate) fn late_objects<'a>(
    alloc: Global,
    timing: &Timing<'_>,
    lines: &[Line<&'a [u8]>],
) -> Result<Vec<Object<'a>>, NoMemory>
    ensures { IfOk result (λ objects. map members_in objects.items ≡ spec.late_objects timing.now.document.now (map seen lines.now)) }
{
    let mut objects = Vec::new(alloc);
    for line in lines {
        add_late(&mut objects, alloc, timing, line)?;
    }
    Ok(objects)
}

/// Adds the object of the eviction that a line tells, if it tells one.
fn add_late<'a>(
    objects: &mut Vec<Object<'a>>,
    alloc: Global,
    timing: &Timing<'_>,
    line: &Line<&'a [u8]>,
) -> Result<(), NoMemory>
    ensures { OnOk result (map members_in objects.new.items
        ≡ map members_in objects.old.items ++ option_to_list (spec.late_by timing.now.document.now (seen line.now))) }
{
    let Some((pod, due)) = eviction_in(&line.says) else {
        return Ok(());
    };
    let document = timing.document;
    let own = own_time(document, timing.clocks, line.actor, line.beat);
    let by_clock = lateness(own, due);
    let in_true_time = lateness(Some(true_time(document, line.beat)), due);
    let members = late_members(alloc, line, pod, due, by_clock, in_true_time)?;
    objects.push(Object { members })?;
    Ok(())
}

/// The members on a pod that a line evicts, by how late that was, in microseconds.
fn late_members<'a>(
    alloc: Global,
    line: &Line<&'a [u8]>,
    pod: &'a [u8],
    due: &'a [u8],
    by_clock: Value<'a>,
    in_true_time: Value<'a>,
) -> Result<Vec<Member<'a>>, NoMemory>
    ensures { IfOk result (λ members. map named members.items
        ≡ spec.late_members (seen line.now) (pod.now, due.now) (data_of by_clock.entry) (data_of in_true_time.entry)) }
{
    let members = vec![in alloc;
        Member::text(b"pod", pod),
        Member::text(b"due", due),
        Member::number(b"evicted", u64::from(line.beat)),
        Member::text(b"by", line.actor),
        Member {
            name: b"lateByItsClockMicros",
            value: by_clock
        },
        Member {
            name: b"lateInTrueTimeMicros",
            value: in_true_time
        },
    ]?;
    Ok(members)
}

/// How late a time of day in microseconds is for what was due, in microseconds.
fn lateness<'a>(now: Option<u64>, due: &[u8]) -> Value<'a>
    ensures { data_of result ≡ spec.late_number now (time_of due.now) }
{
    match (now, read_time(due)) {
        (Some(now), Some(due)) => micros_after(now, due.0),
        _ => Value::Nothing,
    }
}

/// By how much one time is after another, all in microseconds.
fn micros_after<'a>(now: u64, due: u64) -> Value<'a>
    ensures { data_of result ≡ spec.micros_after now due }
{
    if due <= now {
        Value::Number(now - due)
    } else {
        Value::Below(u128::from(due - now))
    }
}
