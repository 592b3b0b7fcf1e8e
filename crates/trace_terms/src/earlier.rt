// The earlier of two lines.
ghost use Rattle.std.specs.Prelude.{◌≡◌};
ghost use Rattle.trace_terms.specs.Findings as spec;

/// The lesser number, if there is one.
pub(crate) fn earlier(one: Option<u64>, other: Option<u64>) -> Option<u64>
    ensures { result ≡ spec.earlier one other }
{
    match (one, other) {
        (None, _) => other,
        (_, None) => one,
        (Some(a), Some(b)) => Some(a.min(b)),
    }
}
