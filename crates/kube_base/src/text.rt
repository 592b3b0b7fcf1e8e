// The texts of a table of names.
ghost use Rattle.std.specs.Prelude.{◌≡◌, ◌++◌, [], ◌∷◌, IfOk};
ghost use Rattle.std.proofs.Common.{ap, rules};
ghost use Rattle.std.specs.Cmp.Lexicographic.{bytes_decides, nat_list_eq_equiv};
ghost use Rattle.std.specs.Cmp.{on_equiv, on_per, partial_equiv_from_equiv};
ghost use Rattle.std.specs.Str.{bytes_eq};

use crate::NoMemory;
use indexmap::Equivalent;
use smallvec::SmallVec;
use std::alloc::Global;
use std::hash::{Hash, Hasher};
use std::marker::Model;

/// The bytes of a name in a table, which contracts see as their list. At most 24 stand in the table itself, and take no memory of their own.
#[derive(Drop)]
pub(crate) struct Text {
    bytes: SmallVec<u8, 24>,
}

impl Model for Text {
    ghost use Rattle.std.specs.Prelude.{ℕ, List};

    ghost Value = { List ℕ };

    ghost view = { λ t. t.bytes.items };
}

impl Text {
    /// These bytes, and those behind them.
    pub(crate) fn joined(alloc: Global, front: &[u8], back: &[u8]) -> Result<Text, NoMemory>
        ensures { IfOk result (λ text. text ≡ front.now ++ back.now) }
    {
        let mut bytes = SmallVec::from_slice(alloc, front)?;
        bytes.extend_from_slice(back)?;
        Ok(Text { bytes })
    }

    /// The bytes.
    pub(crate) fn bytes(&self) -> &[u8]
        ensures { result.now ≡ self.now }
    {
        self.bytes.as_slice()
    }
}

impl PartialEq for Text {
    ghost eq = { bytes_eq };

    ghost laws = { partial_equiv_from_equiv nat_list_eq_equiv };

    fn eq(&self, other: &Text) -> bool {
        self.bytes() == other.bytes()
    }
}

impl Eq for Text {
    ghost laws = { nat_list_eq_equiv };
}

// All bytes are hashed at once.
impl Hash for Text {
    ghost hash_input = { λ t. t ∷ [] };

    ghost respects_eq = { λ x y h. ap (λ bytes. bytes ∷ []) ((bytes_decides x y).0 h) };

    fn hash<H: Hasher>(&self, state: &mut H) {
        state.write(self.bytes());
    }
}

/// Bytes by which a text is looked for.
#[derive(Clone, Copy)]
pub(crate) struct Sought<'a> {
    pub(crate) bytes: &'a [u8],
}

impl<'a> PartialEq for Sought<'a> {
    ghost eq = { λ x y. bytes_eq x.bytes.now y.bytes.now };

    ghost laws = { on_per (λ x. x.bytes.now) (partial_equiv_from_equiv nat_list_eq_equiv) };

    fn eq(&self, other: &Sought<'a>) -> bool {
        self.bytes == other.bytes
    }
}

impl<'a> Eq for Sought<'a> {
    ghost laws = { on_equiv (λ x. x.bytes.now) nat_list_eq_equiv };
}

impl<'a> Hash for Sought<'a> {
    ghost hash_input = { λ x. x.bytes.now ∷ [] };

    ghost respects_eq = { λ x y h. ap (λ bytes. bytes ∷ []) ((bytes_decides x.bytes.now y.bytes.now).0 h) };

    fn hash<H: Hasher>(&self, state: &mut H) {
        state.write(self.bytes);
    }
}

impl<'a> Equivalent<Text> for Sought<'a> {
    ghost equivalent = { λ x text. bytes_eq x.bytes.now text };

    ghost respects_hash = { λ x text h. ap (λ bytes. bytes ∷ []) ((bytes_decides x.bytes.now text).0 h) };

    ghost respects_eq = { λ x a b. nat_list_eq_equiv.congr x.bytes.now a b };

    fn equivalent(&self, text: &Text) -> bool {
        self.bytes == text.bytes()
    }
}
