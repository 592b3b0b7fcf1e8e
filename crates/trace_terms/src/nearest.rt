// The spans that follow a place.
ghost use Rattle.std.specs.Prelude.{◌≡◌, Some};
ghost use Rattle.trace_terms.specs.Near as spec;

/// A span that isn't empty: whose it is, by the place of the identity, its first beat and the line of its lead.
#[derive(Clone, Copy)]
pub struct Span {
    pub who: usize,
    pub from: u32,
    pub line: u64,
}

/// The first span of all, and the first of another identity than that one's.
#[derive(Clone, Copy)]
pub struct Nearest {
    pub first: Option<Span>,
    pub other: Option<Span>,
}

impl Nearest {
    /// The first span of another identity, if it begins before this beat: its line.
    pub fn overlap(self, who: usize, to: u32) -> Option<u64>
        ensures { result ≡ spec.begun_before to (spec.another self who) }
    {
        let span = self.another(who)?;
        if span.from < to {
            Some(span.line)
        } else {
            None
        }
    }

    fn another(self, who: usize) -> Option<Span>
        ensures { result ≡ spec.another self who }
    {
        match self.first {
            Some(first) => if first.who == who {
                self.other
            } else {
                Some(first)
            },
            None => None,
        }
    }

    /// The same with one more span before all.
    pub fn with(self, span: Span) -> Nearest
        ensures { result ≡ record { first = Some span; other = spec.another self span.who } }
    {
        Nearest {
            first: Some(span),
            other: self.another(span.who),
        }
    }
}
