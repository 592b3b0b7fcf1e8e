// What the words of a line mean for the terms.
ghost use Rattle.std.specs.Prelude.{◌≡◌};
ghost use Rattle.trace_terms.specs.Entries.{played};
ghost use Rattle.trace_lines.specs.Reads.{said};
ghost use Rattle.trace_audit.specs.Entries.{role_of};

use trace_lines::Says;
use trace_terms::Role;

/// What the words of a line mean for the terms.
pub(crate) fn role_of<'a>(says: &Says<&'a [u8]>) -> Role<&'a [u8]>
    ensures { played result ≡ role_of (said says.now) }
{
    match says {
        Says::Lead(_) => Role::Leads,
        Says::Crash => Role::Ends,
        Says::Stop => Role::Ends,
        Says::End => Role::Ends,
        Says::Zone(zone, _, rate) => Role::Zones(*zone, *rate),
        Says::Taint(_, _, _) => Role::Taints,
        Says::Unknown(_, _, _) => Role::Acts,
        Says::Mode(_) => Role::Acts,
        Says::Swap(_, _, _) => Role::Acts,
        Says::Untaint(_, _) => Role::Acts,
        Says::Evict(_, _, _) => Role::Acts,
        Says::Start => Role::Idles,
        Says::Pause(_) => Role::Idles,
        Says::Stall(_) => Role::Idles,
        Says::Election(_, _, _) => Role::Idles,
        Says::NodeLease(_, _, _) => Role::Idles,
        Says::Status(_, _, _) => Role::Idles,
        Says::Put(_, _) => Role::Idles,
        Says::Remove(_, _) => Role::Idles,
    }
}
