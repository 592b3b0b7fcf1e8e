// The audit of a trace.
ghost use Rattle.std.specs.Prelude.{◌≡◌, ◌++◌, IfOk, OnOk, codes, decimal};
ghost use Rattle.run_edge.specs.Outcome.{reply_of};
ghost use Rattle.trace_audit.specs.Verdict.{verdict};
ghost use Rattle.replay_top.specs.Replies.{done, on_trace, report_text};

use crate::asked::done;
use kube_base::NoMemory;
use run_edge::{Answer, refuse};
use std::alloc::Global;
use trace_audit::{AuditFault, Report, audit};
use trace_writer::{add, add_number};

/// The line on the trace that an input is.
pub(crate) fn audited(alloc: Global, input: &[u8]) -> Result<Answer, NoMemory>
    ensures { IfOk result (λ answer. reply_of answer ≡ on_trace (verdict input.now)) }
{
    match audit(alloc, input) {
        Ok(report) => reported(alloc, report),
        Err(AuditFault::Refused(code, line)) => {
            let path = path_of(alloc, line)?;
            refuse(alloc, code, &path)
        }
        Err(AuditFault::NoMemory) => Err(NoMemory),
    }
}

/// The line on a trace that is safe.
fn reported(alloc: Global, report: Report) -> Result<Answer, NoMemory>
    ensures { IfOk result (λ answer. reply_of answer ≡ done (report_text report)) }
{
    let mut text = Vec::new(alloc);
    add_report(&mut text, report)?;
    Ok(done(text))
}

#[tactic(auto, unfolding(crate::specs::Replies::report_text))]
fn add_report(text: &mut Vec<u8>, report: Report) -> Result<(), NoMemory>
    ensures { OnOk result (text.new.items ≡ text.old.items ++ report_text report) }
{
    add_count(text, b"audit ok lines=", report.lines)?;
    add_count(text, b" terms=", report.terms)?;
    add_count(text, b" taints=", report.taints)?;
    add(text, b"\n")
}

fn add_count(text: &mut Vec<u8>, label: &[u8], count: u64) -> Result<(), NoMemory>
    ensures { OnOk result (text.new.items ≡ text.old.items ++ (label.now ++ decimal count)) }
{
    add(text, label)?;
    add_number(text, count)
}

/// The path that tells a line.
fn path_of(alloc: Global, line: u64) -> Result<Vec<u8>, NoMemory>
    ensures { IfOk result (λ path. path.items ≡ codes "/" ++ decimal line) }
{
    let mut path = Vec::new(alloc);
    add_count(&mut path, b"/", line)?;
    Ok(path)
}
