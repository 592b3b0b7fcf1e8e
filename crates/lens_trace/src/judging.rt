// What `audit` says of a text's form.
ghost use Rattle.std.specs.Prelude.{◌≡◌, IfOk};
ghost use Rattle.trace_audit.specs.Verdict.{verdict};
ghost use Rattle.lens_trace.specs.Judged as spec;

use kube_base::NoMemory;
use std::alloc::Global;
use trace_audit::{AuditFault, BAD_TRACE, audit};

/// What `audit` says of a text's form.
#[derive(Clone, Copy)]
pub enum Judged {
    /// This line is wrong or missing.
    Wrong(u64),
    /// It is a trace.
    IsTrace,
}

/// What `audit` says of a text.
pub fn judge(alloc: Global, text: &[u8]) -> Result<Judged, NoMemory>
    ensures { IfOk result (λ judged. judged ≡ spec.judged_by (verdict text.now)) }
{
    match audit(alloc, text) {
        Ok(_) => Ok(Judged::IsTrace),
        Err(AuditFault::Refused(code, line)) => Ok(by_code(code, line)),
        Err(AuditFault::NoMemory) => Err(NoMemory),
    }
}

fn by_code(code: u32, line: u64) -> Judged
    ensures { result ≡ spec.by_code code line }
{
    if code == BAD_TRACE {
        Judged::Wrong(line)
    } else {
        Judged::IsTrace
    }
}
