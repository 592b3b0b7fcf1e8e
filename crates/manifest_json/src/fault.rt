// Refusals: a code and the path at which it is found.
ghost use Rattle.std.specs.Prelude.{◌≡◌, [], ◌∷◌, ◌++◌, IfOk, OnOk, OnErr};
ghost use Rattle.manifest_json.specs.Faults.{IsFault};
ghost use Rattle.manifest_json.specs.Walk.{member_path};

use itoa::Buffer;
use kube_base::NoMemory;
use std::alloc::Global;
use std::marker::Model;

/// Keys and places from the top of a document, each after a `/`, which contracts see as the list of its bytes.
#[derive(Debug, Drop)]
pub struct Path {
    alloc: Global,
    bytes: Vec<u8>,
}

impl Model for Path {
    ghost use Rattle.std.specs.Prelude.{List, ℕ};

    ghost Value = { List ℕ };

    ghost view = { λ p. p.bytes.items };
}

impl Path {
    /// No bytes. Takes no memory.
    pub fn new(alloc: Global) -> Path
        ensures { result ≡ [] }
    {
        Path {
            alloc,
            bytes: Vec::new(alloc),
        }
    }

    /// Adds a byte at the end.
    pub fn push(&mut self, byte: u8) -> Result<(), NoMemory>
        ensures ok { OnOk result (self.new ≡ self.old ++ byte ∷ []) }
        ensures err { OnErr result (self.new ≡ self.old) }
    {
        self.bytes.push(byte)?;
        Ok(())
    }

    /// The bytes in order.
    pub fn as_slice(&self) -> &[u8]
        ensures { result.now ≡ self.now }
    {
        self.bytes.as_slice()
    }

    /// A copy equals its source.
    pub fn copy(&self) -> Result<Path, NoMemory>
        ensures { IfOk result (λ copy. copy ≡ self.now) }
    {
        Ok(Path {
            alloc: self.alloc,
            bytes: Vec::from_slice(self.alloc, self.bytes.as_slice())?,
        })
    }

    /// The path of a key below this one.
    pub fn below(&self, key: &str) -> Result<Path, NoMemory>
        ensures { IfOk result (λ path. path ≡ self.now ++ key.now) }
    {
        let mut bytes = Vec::from_slice(self.alloc, self.bytes.as_slice())?;
        bytes.extend_from_slice(key.as_bytes())?;
        Ok(Path {
            alloc: self.alloc,
            bytes,
        })
    }

    /// The path of an array's member.
    pub fn member(&self, key: &str, place: usize) -> Result<Path, NoMemory>
        ensures { IfOk result (λ path. path ≡ member_path self.now key.now place) }
    {
        let mut digits = Buffer::new();
        let mut bytes = Vec::with_capacity(self.alloc, 64)?;
        bytes.extend_from_slice(self.bytes.as_slice())?;
        bytes.extend_from_slice(key.as_bytes())?;
        bytes.extend_from_slice(digits.format(place).as_bytes())?;
        Ok(Path {
            alloc: self.alloc,
            bytes,
        })
    }
}

/// Why a manifest is refused: a code and the path at which it is found.
#[derive(Debug, Drop)]
pub struct Refusal {
    pub code: u32,
    pub path: Path,
}

/// What a reader returns in place of a value.
#[derive(Debug, Drop)]
pub enum ReadFault {
    Refused(Refusal),
    NoMemory,
}

impl From<NoMemory> for ReadFault {
    ghost use Rattle.std.specs.Prelude.{◌≡◌};
    ghost use Rattle.manifest_json.specs.declared.fault.ReadFault.TheVariants as faults;

    ghost from_gives = { λ _ e. e ≡ faults.NoMemory };

    fn from(_: NoMemory) -> Self {
        ReadFault::NoMemory
    }
}

/// The fault with this code and path, unless memory runs out.
pub fn fault(code: u32, path: &Path) -> ReadFault
    ensures { IsFault code path.now result }
{
    match path.copy() {
        Ok(path) => ReadFault::Refused(Refusal { code, path }),
        Err(_) => ReadFault::NoMemory,
    }
}

/// The fault with this code at a key below the path, unless memory runs out.
pub fn fault_below(code: u32, path: &Path, key: &str) -> ReadFault
    ensures { IsFault code (path.now ++ key.now) result }
{
    match path.below(key) {
        Ok(path) => ReadFault::Refused(Refusal { code, path }),
        Err(_) => ReadFault::NoMemory,
    }
}
