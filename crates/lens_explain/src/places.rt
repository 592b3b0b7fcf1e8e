// The places that are kept of keys.
ghost use Rattle.std.specs.Prelude.{◌≡◌, [], ◌∷◌, List, IfOk, OnOk};
ghost use Rattle.lens_explain.specs.Keys.{KeyAt, key_of, place_among};
ghost use Rattle.lens_explain.specs.Kept.{Keeps};

use crate::keys::Key;
use kube_base::NoMemory;
use std::alloc::Global;
use std::collections::BTreeMap;

/// Where each key stands that was met, by the place of its object and its text. Of those that are the same the last one counts.
#[derive(Drop)]
pub(crate) struct Places<'t> {
    pub kept: BTreeMap<(usize, &'t [u8]), usize>,
}

impl<'t> Places<'t> {
    pub(crate) fn new(alloc: Global) -> Places<'t>
        ensures { Keeps result.kept [] }
    {
        Places {
            kept: BTreeMap::new(alloc),
        }
    }

    /// Keeps a key, and tells where the same one stood before.
    pub(crate) fn keep(&mut self, key: Key<'t>) -> Result<Option<usize>, NoMemory>
        ensures before { (earlier : List KeyAt) → Keeps self.old.kept earlier → IfOk result (λ before. before ≡ place_among earlier (key_of key.entry)) }
        ensures kept { (earlier : List KeyAt) → Keeps self.old.kept earlier → OnOk result (Keeps self.new.kept (key_of key.entry ∷ earlier)) }
    {
        let before = self.kept.insert((key.owner, key.text), key.place)?;
        Ok(before)
    }
}
