// A term.
ghost use Rattle.std.specs.Prelude.{◌≡◌};
ghost use Rattle.lens_terms.specs.Terms as spec;

use crate::closing::Closing;

/// A term: the line of its `lead`, who leads, from which beat on, and the line that ends it, if one does. The text of a name is a `T`.
#[derive(Drop)]
pub struct Term<T> {
    pub line: u64,
    pub actor: T,
    pub from: u32,
    pub closing: Option<Closing>,
}

impl<T> Term<T> {
    /// The first beat in which it leads no more, in a trace that ends before the beat `stop`.
    pub fn until(&self, stop: u32) -> u32
        ensures { result ≡ spec.until stop self.now }
    {
        match self.closing {
            Some(closing) => closing.beat,
            None => stop,
        }
    }
}
