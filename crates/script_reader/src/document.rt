// The document as it was read.
use kube_base::Names;
use kube_objects::{Events, Procs, Settings, WaitLists};
use manifest_json::Objects;

/// A document with its defaults, and the names that its numbers stand for.
#[derive(Drop)]
pub struct Document {
    pub settings: Settings,
    /// In the document's order.
    pub controllers: Procs,
    /// In the document's order.
    pub kubelets: Procs,
    /// Those of each controller.
    pub waits: WaitLists,
    pub objects: Objects,
    /// In the order of their beats.
    pub events: Events,
    pub names: Names,
}
