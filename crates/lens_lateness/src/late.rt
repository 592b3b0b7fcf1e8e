// How late the evictions of a trace were.
ghost use Rattle.std.specs.Prelude.{◌≡◌, ◌++◌, IfOk, OnOk, map, option_to_list};
ghost use Rattle.kube_base.specs.Times.{time_of};
ghost use Rattle.trace_lines.specs.Reads.{seen};
ghost use Rattle.lens_lateness.specs.Late as spec;
ghost use Rattle.lens_lateness.specs.Told.{texts_of};

use crate::clocks::{own_time, true_time};
use crate::timing::Timing;
use kube_base::{NoMemory, read_time};
use lens_summary::eviction_in;
use std::alloc::Global;
use trace_lines::Line;
use trace_writer::{add, add_number};

/// An eviction, and how late it was.
#[derive(Drop)]
pub struct Late<'a> {
    pub pod: &'a [u8],
    /// When the pod was due.
    pub due: &'a [u8],
    pub beat: u32,
    /// Who evicted it.
    pub actor: &'a [u8],
    /// How late that was by the clock of who did it.
    pub by_clock: Vec<u8>,
    /// How late it was in true time.
    pub in_true_time: Vec<u8>,
}

/// The evictions of some lines, in their order.
pub(crate) fn late_evictions<'a>(
    alloc: Global,
    timing: &Timing<'_>,
    lines: &[Line<&'a [u8]>],
) -> Result<Vec<Late<'a>>, NoMemory>
    ensures { IfOk result (λ found. map (texts_of timing.now.document.now.settings.beat_millis) found.items
        ≡ spec.late timing.now.document.now (map seen lines.now)) }
{
    let mut found = Vec::new(alloc);
    for line in lines {
        add_late(&mut found, alloc, timing, line)?;
    }
    Ok(found)
}

/// Adds the eviction that a line tells, if it tells one.
fn add_late<'a>(
    found: &mut Vec<Late<'a>>,
    alloc: Global,
    timing: &Timing<'_>,
    line: &Line<&'a [u8]>,
) -> Result<(), NoMemory>
    ensures { OnOk result (map (texts_of timing.now.document.now.settings.beat_millis) found.new.items
        ≡ map (texts_of timing.now.document.now.settings.beat_millis) found.old.items ++ option_to_list (spec.late_by timing.now.document.now (seen line.now))) }
{
    let Some((pod, due)) = eviction_in(&line.says) else {
        return Ok(());
    };
    let document = timing.document;
    let own = own_time(document, timing.clocks, line.actor, line.beat);
    let by_clock = lateness(alloc, own, due)?;
    let in_true_time = lateness(alloc, Some(true_time(document, line.beat)), due)?;
    found.push(Late {
        pod,
        due,
        beat: line.beat,
        actor: line.actor,
        by_clock,
        in_true_time,
    })?;
    Ok(())
}

/// How late a time of day in microseconds is for what was due.
fn lateness(alloc: Global, now: Option<u64>, due: &[u8]) -> Result<Vec<u8>, NoMemory>
    ensures { IfOk result (λ text. text.items ≡ spec.late_text now (time_of due.now)) }
{
    let mut text = Vec::new(alloc);
    match (now, read_time(due)) {
        (Some(now), Some(due)) => add_lateness(&mut text, now, due.0)?,
        _ => add(&mut text, b"-")?,
    }
    Ok(text)
}

/// Adds by how much one time is after another, both in microseconds.
#[tactic(auto, unfolding(crate::specs::Late::lateness_text))]
fn add_lateness(text: &mut Vec<u8>, now: u64, due: u64) -> Result<(), NoMemory>
    ensures { OnOk result (text.new.items ≡ text.old.items ++ spec.lateness_text now due) }
{
    if due <= now {
        add_seconds(text, now - due)
    } else {
        add(text, b"-")?;
        add_seconds(text, due - now)
    }
}

/// Adds so many microseconds in seconds and whole tenths.
#[tactic(auto, unfolding(crate::specs::Late::seconds_text))]
fn add_seconds(text: &mut Vec<u8>, micros: u64) -> Result<(), NoMemory>
    ensures { OnOk result (text.new.items ≡ text.old.items ++ spec.seconds_text micros) }
{
    add_number(text, micros / 1_000_000)?;
    add(text, b".")?;
    add_number(text, micros / 100_000 % 10)?;
    add(text, b"s")
}
