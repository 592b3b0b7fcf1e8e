// Pods, their tolerations and due times.
ghost use Rattle.std.specs.Prelude.{◌≡◌, IfOk};

use crate::{Effect, Key};
use kube_base::{ListOf, NoMemory, SharedList};

/// How a toleration compares its value.
#[derive(Clone, Copy, Debug, PartialEq, Eq)]
pub enum Operator {
    Exists,
    Equal,
}

/// A toleration. Key and value are numbers of texts, no effect means every effect.
#[derive(Clone, Copy, Debug, PartialEq, Eq)]
pub struct Toleration {
    pub key: u32,
    pub operator: Operator,
    pub value: u32,
    pub effect: Option<Effect>,
    pub seconds: Option<i64>,
}

/// A pod's tolerations in order. Pods of one set share theirs.
pub type Tolerations = SharedList<Toleration>;

/// Tolerations in order, which can be added.
pub type TolerationList = ListOf<Toleration>;

/// A Pod. Its node is the number of a name, 0 if it is not scheduled.
#[derive(Debug, Drop)]
pub struct Pod {
    pub node: u32,
    pub tolerations: Tolerations,
}

impl Pod {
    /// A copy equals its source.
    pub fn copy(&self) -> Result<Pod, NoMemory>
        ensures { IfOk result (λ copy. copy ≡ self.now) }
    {
        let tolerations = self.tolerations.copy()?;
        Ok(Pod {
            node: self.node,
            tolerations,
        })
    }
}

/// When a pod is due to be evicted: never, or at a time of day in microseconds.
#[derive(Clone, Copy, Debug, PartialEq, Eq)]
pub enum Due {
    Never,
    At(u128),
}

/// How long a pod bears the taints of its node: it has none to bear; or not at all; or for ever; or for so many microseconds.
#[derive(Clone, Copy, Debug, PartialEq, Eq)]
pub enum Bears {
    Untainted,
    NotAtAll,
    Ever,
    For(u128),
}

/// Pods with their due times.
pub type DueList = ListOf<(Key, Due)>;
