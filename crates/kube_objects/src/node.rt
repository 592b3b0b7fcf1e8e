// Nodes, their taints and the Ready condition.
ghost use Rattle.std.specs.Prelude.{◌≡◌, IfOk};

use kube_base::{ListOf, NoMemory, Wall};

/// The status of a Ready condition.
#[derive(Clone, Copy, Debug, PartialEq, Eq)]
pub enum ReadyStatus {
    True,
    False,
    Unknown,
}

/// A node's Ready condition. The reason is the number of its text.
#[derive(Clone, Copy, Debug, PartialEq, Eq)]
pub struct Ready {
    pub status: ReadyStatus,
    pub reason: u32,
    pub heartbeat: Option<Wall>,
    pub transition: Option<Wall>,
}

/// What a taint does to pods that don't tolerate it.
#[derive(Clone, Copy, Debug, PartialEq, Eq)]
pub enum Effect {
    NoSchedule,
    PreferNoSchedule,
    NoExecute,
}

/// A taint. Key and value are numbers of texts.
#[derive(Clone, Copy, Debug, PartialEq, Eq)]
pub struct Taint {
    pub key: u32,
    pub value: u32,
    pub effect: Effect,
    pub added: Option<Wall>,
}

/// A node's taints in order.
pub type Taints = ListOf<Taint>;

/// A Node. Region and zone are the numbers of its label values, 0 if it has none.
#[derive(Debug, Drop)]
pub struct Node {
    pub region: u32,
    pub zone: u32,
    pub taints: Taints,
    pub ready: Option<Ready>,
}

impl Node {
    /// A copy equals its source.
    pub fn copy(&self) -> Result<Node, NoMemory>
        ensures { IfOk result (λ copy. copy ≡ self.now) }
    {
        let taints = self.taints.copy()?;
        Ok(Node {
            region: self.region,
            zone: self.zone,
            taints,
            ready: self.ready,
        })
    }
}

/// The disruption state of a zone.
#[derive(Clone, Copy, Debug, PartialEq, Eq)]
pub enum ZoneState {
    Normal,
    Partial,
    Full,
}
