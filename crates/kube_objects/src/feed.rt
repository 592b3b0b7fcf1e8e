// What a cache reads: the list of changes, and the objects stored now.
ghost use Rattle.std.specs.Prelude.{◌≡◌, ℕ, ◌+◌, ◌^◌, ◌<◌, true, List, Option, Some, length, drop, slice_get};
ghost use Rattle.kube_base.specs.declared.numbers.Version.{Version};
ghost use Rattle.kube_objects.specs.Feeds.{is_among, shown_pair, shown_at};
ghost use Rattle.kube_objects.specs.Kinds.{IsOfKind};
ghost use Rattle.kube_objects.specs.Newest.{has};
ghost use Rattle.kube_objects.specs.declared.key.Key.{Key};
ghost use Rattle.kube_objects.specs.declared.object.Object.{Object};

use crate::{Key, Object};
use kube_base::Version;

/// A store's list of changes, and what is stored now.
pub trait Feed {
    /// The key of each accepted write, the oldest first.
    ghost changed: { Self → List Key };
    /// What is stored now under each key, with its version.
    ghost shown: { Self → Key → Option (Version × Object) };

    /// The number of changes.
    fn changes(&self) -> u64
        ensures { result ≡ length (changed self.now) };

    /// The key of the change at a position, from 0. None exactly at positions from `changes` on.
    fn change(&self, position: u64) -> Option<Key>
        ensures { result ≡ slice_get (changed self.now) position };

    /// The object stored now under a key. None exactly if the key isn't stored.
    fn object(&self, key: &Key) -> Option<(Version, &Object)>
        ensures { shown_pair result ≡ shown self.now key.now };

    /// Every stored key stands among the changes.
    ghost listed: { (feed : Self) (key : Key) → has (shown feed key) ≡ true → is_among (changed feed) key ≡ true };
    /// Every stored object is of its key's kind.
    ghost kinds: { (feed : Self) (key : Key) (version : Version) (object : Object)
        → shown feed key ≡ Some (version, object) → IsOfKind key object };
}

/// The changes of a store from a position on, and what is stored now under their keys.
pub trait Changed {
    /// The key of each accepted write so far, the oldest first.
    ghost changed: { Self → List Key };
    /// The position of the first of these changes.
    ghost from: { Self → ℕ };
    /// The keys of the changes, the oldest first.
    ghost keys: { Self → List Key };
    /// What is stored now under each key, with its version.
    ghost shown: { Self → Key → Option (Version × Object) };

    /// The position of place 0.
    fn start(&self) -> u64
        ensures { result ≡ from self.now };

    /// The number of changes. With the start it is at most 2^64 - 1.
    fn count(&self) -> u64
        ensures count { result ≡ length (keys self.now) }
        ensures fits { from self.now + length (keys self.now) < 2 ^ 64 };

    /// The key of the change at a place, from 0. None exactly from `count` on.
    fn key(&self, place: u64) -> Option<Key>
        ensures { result ≡ slice_get (keys self.now) place };

    /// The object stored now under the key at a place. None exactly from `count` on, or if that key isn't stored.
    fn object(&self, place: u64) -> Option<(Version, &Object)>
        ensures { shown_pair result ≡ shown_at (shown self.now) (slice_get (keys self.now) place) };

    /// These are the changes from the position on.
    ghost last: { (since : Self) → keys since ≡ drop (from since) (changed since) };
    /// The position and the count make up the number of changes so far.
    ghost total: { (since : Self) → from since + length (keys since) ≡ length (changed since) };
    /// Every stored key stands among the changes so far.
    ghost listed: { (since : Self) (key : Key) → has (shown since key) ≡ true → is_among (changed since) key ≡ true };
    /// Every stored object is of its key's kind.
    ghost kinds: { (since : Self) (key : Key) (version : Version) (object : Object)
        → shown since key ≡ Some (version, object) → IsOfKind key object };
}
