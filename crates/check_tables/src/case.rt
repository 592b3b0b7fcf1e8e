// The cases of rows.
use crate::document::read_text;
use crate::manifest::{holder_in, list_in};
use crate::many::document_of;
use crate::table::Kind;
use crate::trial::{Trial, ample, both_write, ends, shows, writes};
use kube_base::NoMemory;
use run_edge::{Status, Verdict};
use std::alloc::Global;

/// Whether a row holds, in a table of this kind with this form.
pub(crate) fn holds(alloc: Global, kind: Kind, form: &str, row: &str) -> Result<bool, NoMemory> {
    match kind {
        Kind::Words => words_hold(alloc, form, row, Status::Answered(Verdict::Usage)),
        Kind::Lines => line_holds(alloc, row),
        _ => match row.split_once('\t') {
            Some((wanted, case)) => case_holds(alloc, kind, form, wanted, case),
            None => Ok(false),
        },
    }
}

/// Whether a case gives what is wanted.
fn case_holds(
    alloc: Global,
    kind: Kind,
    form: &str,
    wanted: &str,
    case: &str,
) -> Result<bool, NoMemory> {
    let input = fill(alloc, form, case)?;
    let lines = lines_of(alloc, wanted)?;
    match kind {
        Kind::Both => both_write(alloc, input.as_bytes(), lines.as_str()),
        Kind::Check => writes(alloc, "check", input.as_bytes(), lines.as_str()),
        Kind::Collect => writes(alloc, "collect", input.as_bytes(), lines.as_str()),
        Kind::Place => writes(alloc, "place", input.as_bytes(), lines.as_str()),
        Kind::State => state_holds(alloc, form, wanted, case),
        Kind::Audit => {
            let trace = with_line_feeds(alloc, &input)?;
            writes(alloc, "audit", trace.as_bytes(), lines.as_str())
        }
        Kind::Many => many_hold(alloc, case, lines.as_str()),
        Kind::Read => is_text(Some(read_text(alloc, input.as_str())?), wanted),
        Kind::Holder => is_text(holder_in(alloc, input.as_str())?, wanted),
        Kind::Written => is_text(list_in(alloc, input.as_str())?, wanted),
        _ => Ok(false),
    }
}

/// Whether `state` writes what is wanted after the beat of a case, of which the rest is the document.
fn state_holds(alloc: Global, form: &str, wanted: &str, case: &str) -> Result<bool, NoMemory> {
    match case.split_once('\t') {
        Some((beat, rest)) => {
            let document = fill(alloc, form, rest)?;
            let line = lines_of(alloc, wanted)?;
            shows(alloc, beat, document.as_bytes(), line.as_str())
        }
        None => Ok(false),
    }
}

/// The form with a case in the place of `CASE`.
fn fill(alloc: Global, form: &str, case: &str) -> Result<String, NoMemory> {
    match form.split_once("CASE") {
        Some((before, after)) => Ok(format!(in alloc; "{before}{case}{after}")?),
        None => Ok(String::from_str(alloc, case)?),
    }
}

/// The text with a line feed in the place of each `\n`.
pub(crate) fn with_line_feeds(alloc: Global, text: &str) -> Result<String, NoMemory> {
    let mut lines = String::new(alloc);
    for (place, line) in text.split("\\n").enumerate() {
        if place > 0 {
            lines.push('\n')?;
        }
        lines.push_str(line)?;
    }
    Ok(lines)
}

/// The lines of a text, in which `\n` stands between two.
fn lines_of(alloc: Global, text: &str) -> Result<String, NoMemory> {
    let mut lines = with_line_feeds(alloc, text)?;
    lines.push('\n')?;
    Ok(lines)
}

fn is_text(text: Option<String>, wanted: &str) -> Result<bool, NoMemory> {
    match text {
        Some(text) => Ok(text.as_str() == wanted),
        None => Ok(false),
    }
}

fn many_hold(alloc: Global, parts: &str, line: &str) -> Result<bool, NoMemory> {
    match document_of(alloc, parts)? {
        Some(document) => both_write(alloc, document.as_bytes(), line),
        None => Ok(false),
    }
}

/// Whether a run with the words of the row writes what stands in front of them.
fn line_holds(alloc: Global, row: &str) -> Result<bool, NoMemory> {
    match row.split_once('\t') {
        Some((wanted, _)) => words_hold(alloc, wanted, row, Status::Answered(Verdict::Done)),
        None => Ok(false),
    }
}

/// Whether a run with the words of the row, each after a tab, writes this and ends so, over a source that fails if it
/// is read.
fn words_hold(alloc: Global, wanted: &str, row: &str, status: Status) -> Result<bool, NoMemory> {
    let mut words = Vec::new(alloc);
    for word in row.split('\t').skip(1) {
        words.push(String::from_str(alloc, word)?)?;
    }
    let lines = lines_of(alloc, wanted)?;
    let trial = Trial {
        fails: &[0],
        ..ample(b"{}", lines.len())
    };
    ends(alloc, &words, &trial, status, lines.as_bytes())
}
