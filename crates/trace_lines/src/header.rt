// The first line of a trace.
ghost use Rattle.std.specs.Prelude.{◌≡◌, ◌≤◌, IfSome, MatchOption, Some, None};
ghost use Rattle.trace_lines.specs.Headers as spec;

use crate::grammar::{cut, is, labelled_number};

/// The first line of a trace: `trace 1 beat=MILLIS end=BEAT premise=P`.
#[derive(Clone, Copy, Debug, PartialEq, Eq)]
pub struct Header {
    /// The milliseconds of a beat, 1 to 1,000.
    pub beat_millis: u32,
    /// The last beat, at most 604,800,000.
    pub end: u32,
    /// Whether the lease premise holds, as the writer has it.
    pub premise: bool,
}

/// The greatest last beat: seven days of beats of 1 ms.
pub(crate) const LAST_BEAT: u64 = 604_800_000;

/// What the first line says, if it is one.
#[tactic(auto, unfolding(crate::specs::Headers::header_of))]
pub fn read_header(text: &[u8]) -> Option<Header>
    ensures header { result ≡ spec.header_of text.now }
    ensures small { IfSome result (λ h. (h.beat_millis ≤ 1000) × (h.end ≤ 604800000)) }
{
    let version = behind(text, b"trace")?;
    let rest = behind(version, b"1")?;
    let (millis, rest) = cut(rest, b' ')?;
    let millis = labelled_number(millis, b"beat", 1_000)?;
    let (end, rest) = cut(rest, b' ')?;
    let end = labelled_number(end, b"end", LAST_BEAT)?;
    let premise = premise_of(rest)?;
    if millis >= 1 {
        Some(Header {
            beat_millis: millis as u32,
            end: end as u32,
            premise,
        })
    } else {
        None
    }
}

/// What stands behind this word and a space.
#[tactic(auto, unfolding(crate::specs::Headers::behind))]
pub(crate) fn behind<'a>(text: &'a [u8], word: &[u8]) -> Option<&'a [u8]>
    ensures { MatchOption result (spec.behind word.now text.now ≡ None) (λ rest. spec.behind word.now text.now ≡ Some rest.now) }
{
    let (first, rest) = cut(text, b' ')?;
    if is(first, word) { Some(rest) } else { None }
}

fn premise_of(text: &[u8]) -> Option<bool>
    ensures { result ≡ spec.premise_of text.now }
{
    if is(text, b"premise=yes") {
        Some(true)
    } else if is(text, b"premise=no") {
        Some(false)
    } else {
        None
    }
}
