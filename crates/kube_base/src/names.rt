// Numbers for names.
ghost use Rattle.std.specs.Prelude.{◌≡◌, ◌<◌, ◌-◌, ◌^◌, ◌++◌, Some, length, slice_get, option_copied, IfOk, IfSome, OnOk, OnErr};
ghost use Rattle.std.specs.Str.{IsUtf8};
ghost use Rattle.kube_base.specs.Names.{fixed_names, number_of, number_in, with_name, AreNames, EachOnce};

use crate::text::{Sought, Text};
use crate::{NameHash, NoMemory};
use indexmap::IndexSet;
use std::alloc::{AllocFailed, Global};
use std::marker::Model;

/// Texts with their numbers, which contracts see as the list of the texts in the order of their numbers.
///
/// It begins with ten fixed names, of which number 0 is the empty text. A text's number never changes.
#[derive(Drop)]
pub struct Names {
    alloc: Global,
    texts: IndexSet<Text, NameHash>,
    /// The number that was found last. Lists mostly have their names in one order, so the one behind it is compared first.
    last: u32,
}

impl Model for Names {
    ghost use Rattle.std.specs.Prelude.{ℕ, List};
    ghost use Rattle.kube_base.specs.Names.{AreNames};

    ghost Value = { List (List ℕ) };

    ghost view = { λ n. n.texts.keys };

    ghost invariant = { λ n. AreNames n.texts.keys };
}

impl Names {
    /// The ten fixed names, for names that no stranger chooses.
    pub fn new(alloc: Global) -> Result<Names, NoMemory>
        ensures { IfOk result (λ names. names ≡ fixed_names) }
    {
        Names::keyed(alloc, NameHash::plain())
    }

    /// The ten fixed names, in a table that is hashed by the key of the input whose names it gets.
    pub fn keyed(alloc: Global, hash: NameHash) -> Result<Names, NoMemory>
        ensures { IfOk result (λ names. names ≡ fixed_names) }
    {
        let mut texts = IndexSet::with_hasher(alloc, hash);
        add(alloc, &mut texts, b"")?;
        add(alloc, &mut texts, b"KubeletReady")?;
        add(alloc, &mut texts, b"KubeletNotReady")?;
        add(alloc, &mut texts, b"NodeStatusUnknown")?;
        add(alloc, &mut texts, b"NodeStatusNeverUpdated")?;
        add(alloc, &mut texts, b"node.kubernetes.io/not-ready")?;
        add(alloc, &mut texts, b"node.kubernetes.io/unreachable")?;
        add(alloc, &mut texts, b"kube-system")?;
        add(alloc, &mut texts, b"kube-controller-manager")?;
        add(alloc, &mut texts, b"kube-node-lease")?;
        Ok(Names {
            alloc,
            texts,
            last: 0,
        })
    }

    /// How many names are held.
    pub fn len(&self) -> usize
        ensures len { result ≡ length self.now }
        ensures names { AreNames self.now }
        ensures once { EachOnce self.now }
    {
        self.texts.len()
    }

    /// The number of the name. A new name gets the next number.
    pub fn number(&mut self, bytes: &[u8]) -> Result<u32, NoMemory>
        requires few { length self.old < 2 ^ 32 - 1 }
        requires text { IsUtf8 bytes.now }
        ensures number { IfOk result (λ number. number ≡ number_in self.old bytes.now) }
        ensures held { OnOk result (self.new ≡ with_name self.old bytes.now) }
        ensures err { OnErr result (self.new ≡ self.old) }
    {
        if let Some(number) = self.find(bytes) {
            self.last = number;
            return Ok(number);
        }
        let index = add(self.alloc, &mut self.texts, bytes)?;
        Ok(index as u32)
    }

    /// The same of the name that both make together. It's for a new one, which is looked for and kept in one step.
    pub fn number_joined(&mut self, front: &[u8], back: &[u8]) -> Result<u32, NoMemory>
        requires few { length self.old < 2 ^ 32 - 1 }
        requires text { IsUtf8 (front.now ++ back.now) }
        ensures number { IfOk result (λ number. number ≡ number_in self.old (front.now ++ back.now)) }
        ensures held { OnOk result (self.new ≡ with_name self.old (front.now ++ back.now)) }
        ensures err { OnErr result (self.new ≡ self.old) }
    {
        let text = Text::joined(self.alloc, front, back)?;
        let (index, _) = self.texts.insert_full(text)?;
        Ok(index as u32)
    }

    /// Makes room for so many more names beforehand, so that their table needn't grow step by step.
    pub fn make_room(&mut self, more: usize) -> Result<(), NoMemory>
        ensures { self.new ≡ self.old }
    {
        self.texts.reserve(more)?;
        Ok(())
    }

    /// The number of a name that is held.
    pub fn find(&self, bytes: &[u8]) -> Option<u32>
        ensures { result ≡ number_of self.now bytes.now }
    {
        if let Some(number) = self.behind_last(bytes) {
            return Some(number);
        }
        match self.texts.get_index_of(Sought { bytes }) {
            Some(index) => Some(index as u32),
            None => None,
        }
    }

    /// The number behind the last one, if the text is its name.
    fn behind_last(&self, bytes: &[u8]) -> Option<u32>
        ensures { IfSome result (λ number. number_of self.now bytes.now ≡ Some number) }
    {
        let next = self.last as usize + 1;
        if next >= self.len() {
            return None;
        }
        let text = self.texts.get_index(next)?;
        if text.bytes() == bytes {
            Some(next as u32)
        } else {
            None
        }
    }

    /// The text of a number that is given.
    pub fn bytes(&self, number: u32) -> Option<&[u8]>
        ensures text { option_copied result ≡ slice_get self.now number }
        ensures utf8 { IfSome result (λ bytes. IsUtf8 bytes.now) }
    {
        match self.texts.get_index(number as usize) {
            Some(text) => Some(text.bytes()),
            None => None,
        }
    }
}

/// Adds a text, and tells its place.
fn add(alloc: Global, texts: &mut IndexSet<Text, NameHash>, text: &[u8]) -> Result<usize, NoMemory>
    ensures place { IfOk result (λ place. place ≡ number_in texts.old.keys text.now) }
    ensures held { OnOk result (texts.new.keys ≡ with_name texts.old.keys text.now) }
    ensures err { OnErr result (texts.new.keys ≡ texts.old.keys) }
{
    let owned = Text::joined(alloc, text, b"")?;
    let (index, _) = texts.insert_full(owned)?;
    Ok(index)
}

#[cfg(test)]
mod tests {
    use super::*;
    use std::test::Fail;

    #[test]
    fn numbers_names(rt: HostRuntime) -> Result<(), Fail> {
        let mut names = Names::keyed(rt.alloc(), NameHash::of(b"n1"))
            .ok()
            .ok_or("memory")?;
        assert_eq!(rt; names.len(), 10);
        for (text, wanted) in [
            ("n1", 10),
            ("n2", 11),
            ("n1", 10),
            ("n2", 11),
            ("a-text-of-more-than-24-bytes", 12),
            ("", 0),
            ("kube-system", 7),
        ] {
            assert!(rt; names.len() < 14);
            let number = names.number(text.as_bytes()).ok().ok_or("memory")?;
            assert_eq!(rt; number, wanted, "{text}");
        }
        assert!(rt; names.len() < 14);
        let joined = names.number_joined(b"a-text-of-more", b"-than-24-bytes");
        assert_eq!(rt; joined, Ok(12));
        assert_eq!(rt; names.find(b"n1"), Some(10));
        assert_eq!(rt; names.find(b""), Some(0));
        assert_eq!(rt; names.find(b"n3"), None);
        assert_eq!(rt; names.bytes(9), Some(b"kube-node-lease".as_slice()));
        assert_eq!(rt; names.bytes(13), None);
        Ok(())
    }
}
