// The hash of a table of names.
ghost use Rattle.std.specs.Prelude.{◌≡◌};
ghost use Rattle.kube_base.specs.NameHash.{with_key_of, without_key};

use std::hash::{BuildHasher, DefaultHasher, Hasher};

/// What hashes the names of a table: SipHash-1-3 (Aumasson and Bernstein, "SipHash: a fast short-input PRF"), begun from a key of 64 bits.
///
/// A key of the input in which the names stand is for names that a stranger chooses: another name gives another key, by which all names are
/// hashed anew. A table returns the same under any key: no contract of a table speaks of its hash, since none speaks of time.
#[derive(Clone, Copy)]
pub struct NameHash {
    /// The hasher behind the key, from which each hash begins.
    begun: DefaultHasher,
}

impl NameHash {
    /// No key. It is for names that no stranger chooses.
    pub fn plain() -> NameHash
        ensures { result ≡ without_key }
    {
        NameHash {
            begun: DefaultHasher::new(),
        }
    }

    /// The key of a whole input, which is the hash of all its bytes.
    pub fn of(input: &[u8]) -> NameHash
        ensures { result ≡ with_key_of input.now }
    {
        let mut whole = DefaultHasher::new();
        whole.write(input);
        let mut begun = DefaultHasher::new();
        begun.write_u64(whole.finish());
        NameHash { begun }
    }
}

impl BuildHasher for NameHash {
    type Hasher = DefaultHasher;

    ghost build_hasher = { λ hash. hash.begun };

    fn build_hasher(&self) -> DefaultHasher {
        self.begun
    }
}
