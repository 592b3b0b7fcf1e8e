// The lines that end terms, by their actors.
ghost use Rattle.std.specs.Prelude.{◌≡◌, ℕ, List, Some, None, OnOk, if◌then◌else◌};
ghost use Rattle.std.specs.Str.{bytes_eq};
ghost use denote.Ref.{Bor};
ghost use Rattle.lens_terms.specs.Gathered.{held};

use crate::closing::Closing;
use kube_base::NoMemory;
use std::alloc::Global;
use std::collections::HashMap;

/// By its actor, the first line of those so far that ends the terms of that identity. The lines are taken from the last one back.
#[derive(Drop)]
pub(crate) struct Closings<'a> {
    by_actor: HashMap<&'a [u8], Closing>,
}

impl<'a> Closings<'a> {
    /// No lines so far.
    pub(crate) fn new(alloc: Global) -> Closings<'a>
        ensures { (who : Bor (List ℕ)) → held result who ≡ None }
    {
        Closings {
            by_actor: HashMap::new(alloc),
        }
    }

    /// The first line so far that ends the terms of an identity.
    pub(crate) fn get(&self, who: &'a [u8]) -> Option<Closing>
        ensures { result ≡ held self.now who.entry }
    {
        self.by_actor.get(&who).copied()
    }

    /// A line that ends the terms of an identity comes before those so far.
    pub(crate) fn insert(&mut self, who: &'a [u8], closing: Closing) -> Result<(), NoMemory>
        ensures { OnOk result ((other : Bor (List ℕ))
            → held self.new other ≡ (if bytes_eq who.now other.now then Some closing else held self.old other)) }
    {
        self.by_actor.insert(who, closing)?;
        Ok(())
    }
}
