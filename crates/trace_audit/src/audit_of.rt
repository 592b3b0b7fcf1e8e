// The audit of a trace.
ghost use Rattle.std.specs.Prelude.{◌≡◌, ◌≤◌, ◌<◌, count_by, ◌==◌, ℕ, List, [], ◌∷◌, ◌++◌, length, MatchOption, IfSome, IfOk};
ghost use Rattle.trace_lines.specs.declared.header.Header.{Header};
ghost use Rattle.trace_audit.specs.Entries.{lines_of};
ghost use Rattle.trace_audit.specs.Alone.{entries_in, OneActs};
ghost use Rattle.trace_audit.specs.Verdict as spec;
ghost use Rattle.trace_audit.specs.Passes.{Tells, PassStands};

use crate::fault::AuditFault;
use crate::pass::Pass;
use kube_base::{NameHash, NoMemory};
use std::alloc::Global;
use trace_lines::{Header, cut, read_header};

/// What a trace that is safe has.
#[derive(Clone, Copy, Debug, PartialEq, Eq)]
pub struct Report {
    /// All lines.
    pub lines: u64,
    /// The `lead` lines.
    pub terms: u64,
    /// The `taint` lines, with any answer.
    pub taints: u64,
}

/// The code of a text that is no trace: a line is wrong or missing.
pub const BAD_TRACE: u32 = 40;

/// The code of two terms of different identities that share a beat: the first lead that does so with an earlier one.
pub const OVERLAP: u32 = 41;

/// The code of a controller's acting line outside its term.
pub const OUTSIDE: u32 = 42;

/// The code of a taint line that breaks the spacing.
pub const SPACING: u32 = 43;

/// Reads the text of a trace, and reports on it if it is safe: if no two identities lead at one beat, leaders alone act,
/// and taints are spaced. Otherwise it refuses it with a code, and the first line at fault.
///
/// The lines are read once, from the last to the first, so that a lead's line is met when the end of its span is known.
/// What is kept is one seat an identity, with the zones and the taint lines of one term.
pub fn audit(alloc: Global, bytes: &[u8]) -> Result<Report, AuditFault>
    ensures told { Tells result (spec.verdict bytes.now) }

    // In a trace that gets a report all acting lines of a beat are by one identity.
    ensures alone { IfOk result (λ report. OneActs (entries_in bytes.now)) }
{
    let Some((first, rest)) = cut(bytes, b'\n') else {
        return Err(AuditFault::Refused(BAD_TRACE, 1));
    };
    let Some(header) = read_header(first) else {
        return Err(AuditFault::Refused(BAD_TRACE, 1));
    };
    let lines = 1 + feeds(rest);
    let pass = pass_over(alloc, header, lines, rest)?;
    verdict(lines, &pass)
}

/// How many line feeds a text has.
fn feeds(text: &[u8]) -> u64
    ensures { result ≡ count_by (λ byte. byte == 10) text.now }
{
    text.iter().filter(|byte| **byte == b'\n').count() as u64
}

/// What is found in the lines behind the first, of which the last ended one has this number.
fn pass_over(alloc: Global, header: Header, lines: u64, text: &[u8]) -> Result<Pass, NoMemory>
    requires end { header.end ≤ 604800000 }
    requires lines { lines ≡ length (lines_of text.now) }
    ensures { IfOk result (λ pass. PassStands header 2 (lines_of text.now) pass) }
{
    let (mut rest, last) = last_line(text);
    let mut number = lines + 1;
    let mut pass = Pass::new(alloc, NameHash::of(text), header, number, last);
    'lines: while let Some(text) = rest {
        let (before, line) = last_line(text);
        number -= 1;
        pass.take(number, line)?;
        rest = before;
    }
    Ok(pass)
}

/// What stands before the last line feed, if there is one, and what stands behind it.
fn last_line(text: &[u8]) -> (Option<&[u8]>, &[u8])
    ensures lines { MatchOption result.0 (lines_of text.now ≡ result.1.now ∷ [])
        (λ before. lines_of text.now ≡ lines_of before.now ++ result.1.now ∷ []) }
    ensures shorter { IfSome result.0 (λ before. length before.now < length text.now) }
{
    let mut at = text.len();
    while at > 0 {
        if text[at - 1] == b'\n' {
            return (Some(&text[..at - 1]), &text[at..]);
        }
        at -= 1;
    }
    (None, text)
}

fn verdict(lines: u64, pass: &Pass) -> Result<Report, AuditFault>
    ensures { (header : Header) (text : List (List ℕ)) → PassStands header 2 text pass.now → lines ≡ length text
        → Tells result (spec.judged header text) }
{
    if let Some(line) = pass.wrong {
        return Err(AuditFault::Refused(BAD_TRACE, line));
    }
    if let Some(line) = pass.review.findings.crossed {
        return Err(AuditFault::Refused(OVERLAP, line));
    }
    if let Some(line) = pass.review.outside() {
        return Err(AuditFault::Refused(OUTSIDE, line));
    }
    if let Some(line) = pass.review.findings.unspaced {
        return Err(AuditFault::Refused(SPACING, line));
    }
    Ok(Report {
        lines,
        terms: pass.review.leads,
        taints: pass.review.taints,
    })
}
