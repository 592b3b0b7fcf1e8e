// Settings that don't fit each other, with their values.

use crate::digits::digits_of;
use crate::walk::{last_step, number_at};
use kube_base::NoMemory;
use std::alloc::Global;
use trace_writer::{add, add_number};

/// The timings of an election, in the units of the document.
#[derive(Clone, Copy)]
struct Timings {
    lease_seconds: u64,
    renew_millis: u64,
    retry_millis: u64,
}

/// Adds the rule that isn't kept at this path, with the values that stand there, or by default.
pub(crate) fn add_rule(
    alloc: Global,
    text: &mut Vec<u8>,
    input: &[u8],
    path: &[u8],
) -> Result<(), NoMemory> {
    if path.starts_with(b"/events/") {
        return add(
            text,
            b"A pause begins only after a beat at which no earlier pause of its process lasts, and a stall only after one at which no earlier stall does.\n",
        );
    }
    let standard = Timings {
        lease_seconds: 15,
        renew_millis: 10_000,
        retry_millis: 2_000,
    };
    let settings = timings_at(alloc, input, b"/settings", standard)?;
    let timings = timings_at(alloc, input, path, settings)?;
    if timings.renew_millis >= timings.lease_seconds.saturating_mul(1_000) {
        add_lease(text, timings)
    } else if timings.retry_millis.saturating_mul(6) >= timings.renew_millis.saturating_mul(5) {
        add_retry(text, timings)
    } else {
        add_rates(alloc, text, input)
    }
}

fn timings_at(
    alloc: Global,
    input: &[u8],
    path: &[u8],
    default: Timings,
) -> Result<Timings, NoMemory> {
    Ok(Timings {
        lease_seconds: setting(
            alloc,
            input,
            path,
            b"/leaseDurationSeconds",
            default.lease_seconds,
        )?,
        renew_millis: setting(
            alloc,
            input,
            path,
            b"/renewDeadlineMillis",
            default.renew_millis,
        )?,
        retry_millis: setting(
            alloc,
            input,
            path,
            b"/retryPeriodMillis",
            default.retry_millis,
        )?,
    })
}

/// The number at a key below a path, or its default.
pub(crate) fn setting(
    alloc: Global,
    input: &[u8],
    path: &[u8],
    key: &[u8],
    default: u64,
) -> Result<u64, NoMemory> {
    let mut below = Vec::from_slice(alloc, path)?;
    below.extend_from_slice(key)?;
    Ok(number_at(alloc, input, &below)?.unwrap_or(default))
}

fn add_lease(text: &mut Vec<u8>, timings: Timings) -> Result<(), NoMemory> {
    add(
        text,
        b"leaseDurationSeconds has to be longer than renewDeadlineMillis: ",
    )?;
    add_number(text, timings.lease_seconds)?;
    add(text, b" s is not longer than ")?;
    add_number(text, timings.renew_millis)?;
    add(text, b" ms.\n")
}

fn add_retry(text: &mut Vec<u8>, timings: Timings) -> Result<(), NoMemory> {
    add(
        text,
        b"5 times renewDeadlineMillis has to be more than 6 times retryPeriodMillis: 5 x ",
    )?;
    add_number(text, timings.renew_millis)?;
    add(text, b" is not more than 6 x ")?;
    add_number(text, timings.retry_millis)?;
    add(text, b".\n")
}

fn add_rates(alloc: Global, text: &mut Vec<u8>, input: &[u8]) -> Result<(), NoMemory> {
    let secondary = setting(alloc, input, b"/settings", b"/secondaryRate", 10)?;
    let primary = setting(alloc, input, b"/settings", b"/primaryRate", 100)?;
    if secondary <= primary {
        return add(
            text,
            b"\"queue\":\"again\" needs \"judge\":\"pass\", and \"inRelease\":\"acts\" a release other than \"stop\".\n",
        );
    }
    add(text, b"secondaryRate is at most primaryRate: ")?;
    add_number(text, secondary)?;
    add(text, b" is more than ")?;
    add_number(text, primary)?;
    add(text, b".\n")
}

/// Adds the beats of an event that isn't in its order, of the one before it, and of the end.
pub(crate) fn add_order(
    alloc: Global,
    text: &mut Vec<u8>,
    input: &[u8],
    path: &[u8],
) -> Result<(), NoMemory> {
    let place = digits_of(last_step(path)).unwrap_or(0);
    let mut before = Vec::from_slice(alloc, b"/events/")?;
    add_number(&mut before, place.saturating_sub(1))?;
    let beat = setting(alloc, input, path, b"/beat", 0)?;
    let earlier = setting(alloc, input, &before, b"/beat", 0)?;
    let end = setting(alloc, input, b"/settings", b"/endBeat", 0)?;
    if beat < earlier {
        add_beats(text, beat, b", and the one before it at beat ", earlier)
    } else if beat > end {
        add_beats(text, beat, b", after endBeat ", end)
    } else {
        Ok(())
    }
}

/// Adds the beat of an event beside another one.
fn add_beats(text: &mut Vec<u8>, beat: u64, label: &[u8], other: u64) -> Result<(), NoMemory> {
    add(text, b"This event is at beat ")?;
    add_number(text, beat)?;
    add(text, label)?;
    add_number(text, other)?;
    add(text, b".\n")
}
