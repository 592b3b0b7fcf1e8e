// The spacing of taints in a term.
ghost use Rattle.std.specs.Prelude.{◌≡◌, ◌*◌, ◌<◌, length, drop, slice_get};
ghost use Rattle.trace_terms.specs.Findings as spec;

use crate::earlier::earlier;
use crate::mark::Mark;

/// The first of the taint lines of a term, which stand here from the last to the first, that breaks the spacing: if there is no zone
/// line, or if it comes too soon after the one as many taint lines before it as there are zones, or after the first zone line if
/// there are fewer.
pub(crate) fn first_breaking(
    millis: u32,
    rate: u32,
    zones: usize,
    start: Option<u32>,
    taints: &[Mark],
) -> Option<u64>
    ensures { result ≡ spec.least (spec.breaking millis rate zones start taints.now) }
{
    let mut found = None;
    for index in 0..taints.len() {
        let (_, rest) = taints.split_at(index);
        let taint = taints[index];
        if breaks(millis, rate, start, before(zones, rest), taint.beat) {
            found = earlier(found, Some(taint.line));
        }
    }
    found
}

/// Whether a taint line at a beat breaks the spacing: there is no zone line, or it comes too soon after the first one, or after the taint
/// line that stands as many taint lines before as there are zones.
fn breaks(millis: u32, rate: u32, first: Option<u32>, before: Option<Mark>, to: u32) -> bool
    ensures { result ≡ spec.breaks millis rate first before to }
{
    match (first, before) {
        (None, _) => true,
        (Some(first), None) => !is_wide(millis, rate, first, to),
        (Some(_), Some(before)) => !is_wide(millis, rate, before.beat, to),
    }
}

/// The taint line that stands as many taint lines before the first of these as there are zones.
fn before(zones: usize, taints: &[Mark]) -> Option<Mark>
    ensures { result ≡ slice_get taints.now zones }
{
    match taints.get(zones) {
        Some(mark) => Some(*mark),
        None => None,
    }
}

/// Whether a step from a beat to another is wide.
fn is_wide(millis: u32, rate: u32, from: u32, to: u32) -> bool
    ensures { result ≡ spec.is_wide millis rate from to }
{
    let scale = u64::from(rate) * 2_000_000_000;
    product(square(to.saturating_sub(from), millis), scale) >= 1_000_000_000_000_000
}

fn square(one: u32, other: u32) -> u64
    ensures { result ≡ one * other }
{
    u64::from(one) * u64::from(other)
}

fn product(one: u64, other: u64) -> u128
    ensures { result ≡ one * other }
{
    u128::from(one) * u128::from(other)
}
