//! How far a clock goes in a span of beats, and when somebody who looks at it again and again finds that a time is over.
#![tactic(auto)]

ghost use Rattle.span_laws.specs.Looks.{LooksFind};
ghost use Rattle.span_laws.specs.Quotients.{RoundedUp, BoundsAreExact};
ghost use Rattle.span_laws.specs.Spans.{ReadingsGrow, ReadingsLast};

/// A clock's reading grows by a time in as many beats as are enough for it at the clock's least speed of the span, and in no fewer than are
/// needed for it at its greatest.
pub fn readings_grow()
    ensures grow { ReadingsGrow }
    ensures last { ReadingsLast }
{}

/// Of looks that are so many beats apart, the first one that finds a time over comes neither sooner nor later than the steps allow.
pub fn looks_find()
    ensures { LooksFind }
{}

/// What is enough and needed is a quotient rounded up, and the bounds on looks are a least and a greatest of two quotients: the exact ones.
pub fn quotients_are_bounds()
    ensures rounded { RoundedUp }
    ensures exact { BoundsAreExact }
{}
