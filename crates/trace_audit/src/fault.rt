// Why a trace is refused.
use kube_base::NoMemory;

/// Why no report on a trace is given.
#[derive(Clone, Copy, Debug, PartialEq, Eq)]
pub enum AuditFault {
    /// A code, and a line counted from 1.
    Refused(u32, u64),
    NoMemory,
}

impl From<NoMemory> for AuditFault {
    ghost use Rattle.std.specs.Prelude.{◌≡◌};
    ghost use Rattle.trace_audit.specs.declared.fault.AuditFault.TheVariants as faults;

    ghost from_gives = { λ _ e. e ≡ faults.NoMemory };

    fn from(_: NoMemory) -> Self {
        AuditFault::NoMemory
    }
}
