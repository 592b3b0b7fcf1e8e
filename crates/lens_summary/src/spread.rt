// How long spans are.
ghost use Rattle.std.specs.Prelude.{◌≡◌};
ghost use Rattle.lens_summary.specs.Spread as spec;

use lens_terms::Span;

/// How many beats a span has.
fn beats(span: Span) -> u32
    ensures { result ≡ spec.beats span }
{
    span.until.saturating_sub(span.from)
}

/// How many beats the longest span has, 0 if there is none.
pub(crate) fn longest(spans: &[Span]) -> u32
    ensures { result ≡ spec.longest spans.now }
{
    let mut most = 0;
    for span in spans {
        most = most.max(beats(*span));
    }
    most
}

/// How many beats all spans have together.
pub(crate) fn total(spans: &[Span]) -> u32
    ensures { result ≡ spec.total spans.now }
{
    let mut sum: u32 = 0;
    for span in spans {
        sum = sum.saturating_add(beats(*span));
    }
    sum
}
