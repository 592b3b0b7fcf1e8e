// Watches and kubelets' statuses that are in force.
ghost use Rattle.std.specs.Prelude.{◌≡◌, ◌++◌, ◌<◌, ℕ, List, [], IfOk, OnOk, map};
ghost use Rattle.kube_objects.specs.declared.script.What.TheVariants as what;
ghost use Rattle.kube_objects.specs.Document.{Doc, processes};
ghost use Rattle.kube_objects.specs.Entry.{Entry};
ghost use Rattle.kube_objects.specs.InForce.{watches, posted_status};
ghost use Rattle.history.specs.Steps.{happens};
ghost use Rattle.world_process.specs.InForce.{InForceStands, standing_first};

use kube_base::{NoMemory, ProcId};
use kube_objects::{Proc, Procs, ReadyStatus};
use std::alloc::Global;

// What holds of one process.
#[derive(Clone, Copy, Debug, PartialEq, Eq)]
pub struct Standing {
    pub watch: bool,
    pub status: ReadyStatus,
}

/// Of each process whether its watch is on, and the status that its messages carry: what the last such event says, or else the
/// document. A watch matters of controllers alone, and a status of kubelets.
#[derive(Drop)]
pub struct InForce {
    pub standing: Vec<Standing>,
}

impl InForce {
    /// As the document has them.
    pub fn new(alloc: Global, controllers: &Procs, kubelets: &Procs) -> Result<InForce, NoMemory>
        ensures { (doc : Doc) → doc.controllers ≡ controllers.now → doc.kubelets ≡ kubelets.now → IfOk result (InForceStands doc []) }
    {
        let mut standing = Vec::new(alloc);
        add_first(&mut standing, controllers.as_slice())?;
        add_first(&mut standing, kubelets.as_slice())?;
        Ok(InForce { standing })
    }

    /// Puts a controller's watch on or off.
    pub fn set_watch(&mut self, who: ProcId, on: bool)
        ensures { (doc : Doc) (k : ℕ) (h : List Entry) → InForceStands doc h self.old
            → InForceStands doc (happens doc k (what.Watch who on) h) self.new }
    {
        match self.standing.get_mut(who.0 as usize) {
            Some(standing) => standing.watch = on,
            None => {}
        }
    }

    /// Sets the status that a kubelet's messages carry.
    pub fn set_status(&mut self, who: ProcId, status: ReadyStatus)
        ensures { (doc : Doc) (k : ℕ) (h : List Entry) → InForceStands doc h self.old
            → InForceStands doc (happens doc k (what.Ready who status) h) self.new }
    {
        match self.standing.get_mut(who.0 as usize) {
            Some(standing) => standing.status = status,
            None => {}
        }
    }

    /// Whether a process's watch is on.
    pub fn watch(&self, who: ProcId) -> bool
        ensures { (doc : Doc) (h : List Entry) → InForceStands doc h self.now → who.0 < processes doc → result ≡ watches doc who.0 h }
    {
        match self.standing.get(who.0 as usize) {
            Some(standing) => standing.watch,
            None => true,
        }
    }

    /// The status that a process's messages carry.
    pub fn status(&self, who: ProcId) -> ReadyStatus
        ensures { (doc : Doc) (h : List Entry) → InForceStands doc h self.now → who.0 < processes doc
            → result ≡ posted_status doc who.0 h }
    {
        match self.standing.get(who.0 as usize) {
            Some(standing) => standing.status,
            None => ReadyStatus::True,
        }
    }
}

// As the document has them.
fn add_first(standing: &mut Vec<Standing>, processes: &[Proc]) -> Result<(), NoMemory>
    ensures { OnOk result (standing.new.items ≡ standing.old.items ++ map standing_first processes.now) }
{
    for process in processes {
        standing.push(Standing {
            watch: process.watch,
            status: process.ready,
        })?;
    }
    Ok(())
}
