// The changes of a store from a position on.
ghost use Rattle.std.specs.Prelude.{◌≤◌, length};

use crate::Store;
use kube_base::Version;
use kube_objects::{Changed, Feed, Key, Object};

/// What a store changed from a position on, with its objects as they are stored now. It copies nothing.
#[derive(Clone, Copy)]
pub struct Since<'a> {
    store: &'a Store,
    position: u64,
    ghost within: { position ≤ length store.now.changes.items },
}

impl<'a> Since<'a> {
    ghost use Rattle.std.specs.Prelude.{◌≡◌};
    ghost use Rattle.object_store.specs.Stands.{start_since, keys_since, shown_since, changed_in, shown_in};

    pub(crate) fn new(store: &'a Store, position: u64) -> Since<'a>
        requires { position ≤ length (changed_in store.now) }
        ensures store { result.store.now ≡ store.now }
        ensures position { result.position ≡ position }
    {
        Since { store, position }
    }
}

impl Changed for Since<'_> {
    ghost use Rattle.std.specs.Prelude.{refl};
    ghost use Rattle.object_store.specs.FeedLaws.{kinds_since, listed_since, total_since};
    ghost use Rattle.object_store.specs.Stands.{changed_since, start_since, keys_since, shown_since};

    ghost changed = { changed_since };

    ghost from = { start_since };

    ghost keys = { keys_since };

    ghost shown = { shown_since };

    fn start(&self) -> u64 {
        self.position
    }

    fn count(&self) -> u64 {
        self.store.changes().saturating_sub(self.position)
    }

    fn key(&self, place: u64) -> Option<Key> {
        if place < self.count() {
            return self.store.change(self.position + place);
        }
        None
    }

    fn object(&self, place: u64) -> Option<(Version, &Object)> {
        match self.key(place) {
            Some(key) => self.store.object(&key),
            None => None,
        }
    }

    ghost last = { λ since. refl };

    ghost total = { total_since };

    ghost listed = { listed_since };

    ghost kinds = { kinds_since };
}
