// The stretches so far that end last.
ghost use Rattle.std.specs.Prelude.{◌≡◌};
ghost use Rattle.lens_terms.specs.Together as spec;

/// Of some stretches: the identity of the one that ends last, the beat of that end, and the last end of one of another identity. The text of a
/// name is a `T`.
#[derive(Drop)]
pub struct Latest<T> {
    pub who: T,
    pub until: u32,
    pub beside: u32,
}

impl<'a> Latest<&'a [u8]> {
    /// No stretch so far.
    pub(crate) fn none_yet() -> Latest<&'a [u8]>
        ensures { spec.latest_shown result ≡ spec.none_yet }
    {
        Latest {
            who: b"",
            until: 0,
            beside: 0,
        }
    }

    /// The last end of a stretch of another identity than this one.
    pub(crate) fn rival(&self, who: &[u8]) -> u32
        ensures { result ≡ spec.rival (spec.latest_shown self.now) who.now }
    {
        if self.who == who {
            self.beside
        } else {
            self.until
        }
    }

    /// The same with one more stretch.
    pub(crate) fn with_stretch(&self, who: &'a [u8], end: u32) -> Latest<&'a [u8]>
        ensures { spec.latest_shown result ≡ spec.with_stretch (spec.latest_shown self.now) who.now end }
    {
        if self.who == who {
            Latest {
                who: self.who,
                until: self.until.max(end),
                beside: self.beside,
            }
        } else if self.until < end {
            Latest {
                who,
                until: end,
                beside: self.until,
            }
        } else {
            Latest {
                who: self.who,
                until: self.until,
                beside: self.beside.max(end),
            }
        }
    }
}
