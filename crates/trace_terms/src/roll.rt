// Texts that are kept once each.
ghost use Rattle.std.specs.Prelude.{◌≡◌, [], map, length, IfOk, OnOk, OnErr};
ghost use Rattle.kube_base.specs.Names.{number_in, with_name};
ghost use Rattle.trace_terms.specs.Seats.{Once};

use indexmap::IndexSet;
use kube_base::{NameHash, NoMemory};
use std::alloc::Global;
use std::marker::Model;

/// Different texts, which contracts see as their list in the order in which they came.
#[derive(Drop)]
pub struct Roll {
    alloc: Global,
    texts: IndexSet<Vec<u8>, NameHash>,
}

impl Model for Roll {
    ghost use Rattle.std.specs.Prelude.{ℕ, List, map};

    ghost Value = { List (List ℕ) };

    ghost view = { λ r. map (λ text. text.items) r.texts.keys };
}

impl Roll {
    /// No texts. They are hashed by the key of the trace in which they stand.
    pub fn new(alloc: Global, hash: NameHash) -> Roll
        ensures { result ≡ [] }
    {
        Roll {
            alloc,
            texts: IndexSet::with_hasher(alloc, hash),
        }
    }

    /// How many texts there are.
    pub fn len(&self) -> usize
        ensures len { result ≡ length self.now }
        ensures once { Once self.now }
    {
        self.texts.len()
    }

    /// The place of a text, which is added if it is new.
    pub fn place(&mut self, text: &[u8]) -> Result<usize, NoMemory>
        ensures place { IfOk result (λ place. place ≡ number_in self.old text.now) }
        ensures held { OnOk result (self.new ≡ with_name self.old text.now) }
        ensures err { OnErr result (self.new ≡ self.old) }
    {
        if let Some(index) = self.texts.get_index_of(text) {
            return Ok(index);
        }
        add(self.alloc, &mut self.texts, text)
    }
}

fn add(
    alloc: Global,
    texts: &mut IndexSet<Vec<u8>, NameHash>,
    text: &[u8],
) -> Result<usize, NoMemory>
    ensures place { IfOk result (λ place. place ≡ number_in (map (λ t. t.items) texts.old.keys) text.now) }
    ensures held { OnOk result (map (λ t. t.items) texts.new.keys ≡ with_name (map (λ t. t.items) texts.old.keys) text.now) }
    ensures err { OnErr result (map (λ t. t.items) texts.new.keys ≡ map (λ t. t.items) texts.old.keys) }
{
    let owned = Vec::from_slice(alloc, text)?;
    let (index, _) = texts.insert_full(owned)?;
    Ok(index)
}
