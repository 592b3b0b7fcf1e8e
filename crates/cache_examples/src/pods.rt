// Writes of pods.
ghost use Rattle.std.specs.Prelude.{◌≡◌};

use kube_base::Version;
use kube_objects::{Key, Kind, Object, Pod, Tolerations};
use object_store::{Store, StoreFault};
use std::alloc::Global;

/// The key of the pod of this name.
pub(crate) fn key(name: u32) -> Key
    ensures { result.kind ≡ Kind.Pod }
{
    Key {
        kind: Kind::Pod,
        space: 14,
        name,
    }
}

/// Creates a pod on a node.
pub(crate) fn create(
    alloc: Global,
    store: &mut Store,
    name: u32,
    node: u32,
) -> Result<Version, StoreFault> {
    let pod = Pod {
        node,
        tolerations: Tolerations::new(alloc),
    };
    store.create(key(name), Object::Pod(pod))
}

/// Writes a pod of this version as one on another node.
pub(crate) fn place(
    alloc: Global,
    store: &mut Store,
    name: u32,
    version: u64,
    node: u32,
) -> Result<Version, StoreFault> {
    let pod = Pod {
        node,
        tolerations: Tolerations::new(alloc),
    };
    store.update(key(name), Version(version), Object::Pod(pod))
}

/// Removes a pod, if it is stored.
pub(crate) fn remove(store: &mut Store, name: u32) -> Result<Version, StoreFault> {
    match store.remove(key(name)) {
        Ok(Some(version)) => Ok(version),
        Ok(None) => Err(StoreFault::Absent),
        Err(_) => Err(StoreFault::NoMemory),
    }
}
