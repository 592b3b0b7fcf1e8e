// One input over sources and sinks of all sorts.
use crate::by_beats::is_trace;
use crate::case::with_line_feeds;
use crate::tally::Tally;
use crate::trial::{Trial, ample, ends, status_of, words_in, writes};
use kube_base::NoMemory;
use run_edge::{Status, Verdict};
use std::alloc::Global;

/// The most bytes that an input may have.
const LARGEST: usize = 16_777_216;

/// The words of a run, the input, and the text that is written of it.
#[derive(Clone, Copy)]
struct Asked<'a> {
    words: &'a Vec<String>,
    input: &'a [u8],
    text: &'a str,
}

/// Whether `replay` writes this trace of the document, and whether it is the trace if each beat is done.
pub(crate) fn replays(alloc: Global, document: &str, trace: &str) -> Result<Tally, NoMemory> {
    let mut tally = Tally::of(writes(alloc, "replay", document.as_bytes(), trace)?);
    tally.add(is_trace(alloc, document, trace)?);
    Ok(tally)
}

/// Runs a command, whose words stand before a tab, on the input behind it, of which it writes this text: over sources and sinks that fail,
/// and on the input cut and with blanks behind it.
pub(crate) fn after_faults(alloc: Global, form: &str, text: &str) -> Result<Tally, NoMemory> {
    let Some((line, input)) = form.split_once('\t') else {
        return Ok(Tally::of(false));
    };
    let words = words_in(alloc, line)?;
    let bytes = with_line_feeds(alloc, input)?;
    let asked = Asked {
        words: &words,
        input: bytes.as_bytes(),
        text,
    };
    let mut tally = over_full_sinks(alloc, &asked)?;
    if line.starts_with("generate ") {
        tally.join(over_unread_source(alloc, &asked)?);
        return Ok(tally);
    }
    let is_audit = line == "audit";
    tally.join(over_fronts(alloc, &asked, is_audit)?);
    tally.join(over_failing_sources(alloc, &asked)?);
    tally.join(over_padding(alloc, &asked, is_audit)?);
    Ok(tally)
}

/// Each front of the input is no input.
fn over_fronts(alloc: Global, asked: &Asked<'_>, is_audit: bool) -> Result<Tally, NoMemory> {
    let refusal = if is_audit {
        "refused 40 /1\n"
    } else {
        "refused 1 /\n"
    };
    let mut tally = Tally::new();
    for length in 0..asked.input.len() {
        tally.add(tells(alloc, asked, &asked.input[..length], refusal)?);
    }
    Ok(tally)
}

/// Whether the words write this text of an input, and end as the text says.
fn tells(alloc: Global, asked: &Asked<'_>, input: &[u8], text: &str) -> Result<bool, NoMemory> {
    let trial = ample(input, text.len());
    ends(alloc, asked.words, &trial, status_of(text), text.as_bytes())
}

/// Whichever call of the source fails, nothing is written. After the last one none can fail.
fn over_failing_sources(alloc: Global, asked: &Asked<'_>) -> Result<Tally, NoMemory> {
    let mut tally = Tally::new();
    let calls = asked.input.len() as u64;
    for call in 0..=calls {
        let trial = Trial {
            source_chunk: 1,
            fails: &[call],
            ..ample(asked.input, asked.text.len())
        };
        tally.add(ends(alloc, asked.words, &trial, Status::SourceFault, b"")?);
    }
    let trial = Trial {
        source_chunk: 1,
        fails: &[calls.saturating_add(1)],
        ..ample(asked.input, asked.text.len())
    };
    let text = asked.text.as_bytes();
    tally.add(ends(
        alloc,
        asked.words,
        &trial,
        Status::Answered(Verdict::Done),
        text,
    )?);
    Ok(tally)
}

/// A source that isn't read may fail.
fn over_unread_source(alloc: Global, asked: &Asked<'_>) -> Result<Tally, NoMemory> {
    let trial = Trial {
        fails: &[0],
        ..ample(asked.input, asked.text.len())
    };
    let text = asked.text.as_bytes();
    Ok(Tally::of(ends(
        alloc,
        asked.words,
        &trial,
        Status::Answered(Verdict::Done),
        text,
    )?))
}

/// A sink that is full holds the front of the text.
fn over_full_sinks(alloc: Global, asked: &Asked<'_>) -> Result<Tally, NoMemory> {
    let mut tally = Tally::new();
    let whole = asked.text.as_bytes();
    for room in 0..=whole.len() {
        let trial = Trial {
            room,
            sink_chunk: 3,
            ..ample(asked.input, room)
        };
        let status = if room < whole.len() {
            Status::SinkFault
        } else {
            Status::Answered(Verdict::Done)
        };
        tally.add(ends(alloc, asked.words, &trial, status, &whole[..room])?);
    }
    Ok(tally)
}

/// Blanks behind a document change nothing, up to the most bytes that it may have; behind a trace they are a line without an end.
fn over_padding(alloc: Global, asked: &Asked<'_>, is_audit: bool) -> Result<Tally, NoMemory> {
    let mut bytes = asked.input.to_vec(alloc)?;
    bytes.resize(LARGEST, b' ')?;
    let text = if is_audit {
        "refused 40 /2\n"
    } else {
        asked.text
    };
    let mut tally = Tally::of(tells(alloc, asked, &bytes, text)?);
    bytes.push(b' ')?;
    tally.add(tells(alloc, asked, &bytes, "refused 33 /\n")?);
    Ok(tally)
}
