// How identities stand.
ghost use Rattle.std.specs.Prelude.{◌≡◌, ℕ, List, Some, None, OnOk, if◌then◌else◌};
ghost use Rattle.std.specs.Str.{bytes_eq};
ghost use denote.Ref.{Bor};
ghost use Rattle.lens_terms.specs.Gathered.{stood};

use crate::standing::Standing;
use kube_base::NoMemory;
use std::alloc::Global;
use std::collections::HashMap;

/// By its name, how each identity stands behind the lines so far. The lines are taken from the first one on.
#[derive(Drop)]
pub(crate) struct Standings<'a> {
    by_actor: HashMap<&'a [u8], Standing>,
}

impl<'a> Standings<'a> {
    /// No lines so far.
    pub(crate) fn new(alloc: Global) -> Standings<'a>
        ensures { (who : Bor (List ℕ)) → stood result who ≡ None }
    {
        Standings {
            by_actor: HashMap::new(alloc),
        }
    }

    /// How an identity stands, if one of the lines so far is its own.
    pub(crate) fn get(&self, who: &'a [u8]) -> Option<Standing>
        ensures { result ≡ stood self.now who.entry }
    {
        self.by_actor.get(&who).copied()
    }

    /// An identity stands so from now on.
    pub(crate) fn insert(&mut self, who: &'a [u8], standing: Standing) -> Result<(), NoMemory>
        ensures { OnOk result ((other : Bor (List ℕ))
            → stood self.new other ≡ (if bytes_eq who.now other.now then Some standing else stood self.old other)) }
    {
        self.by_actor.insert(who, standing)?;
        Ok(())
    }
}
