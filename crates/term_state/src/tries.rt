// The tries by which a tick writes.
ghost use Rattle.std.specs.Prelude.{◌≡◌, ℕ, not, List, Some, None, OnOk, IfOk};
ghost use Rattle.kube_objects.specs.Entry.{Entry, Identity, Tick};
ghost use Rattle.kube_objects.specs.Stored.{node_write, tick_write, try_write};
ghost use Rattle.kube_objects.specs.Stored as stored_words;
ghost use Rattle.kube_objects.specs.Tick.{add};
ghost use Rattle.kube_objects.specs.Tries as spec;
ghost use Rattle.kube_objects.specs.Wire.{loses_requests};
ghost use Rattle.object_store.specs.Stands.{StoreStands};
ghost use Rattle.object_store.specs.StoreAnswers.{IsReply};
ghost use Rattle.term_state.specs.Tried.{answer_of};

use kube_base::{NoMemory, Version};
use kube_objects::{Answer, Key, Node, Object};
use object_store::{Store, StoreFault};

// How a write was answered.
fn answer(outcome: Result<Version, StoreFault>) -> Result<Answer, NoMemory>
    ensures { result ≡ answer_of outcome }
{
    match outcome {
        Ok(version) => Ok(Answer::Done(version)),
        Err(StoreFault::Absent) => Ok(Answer::Absent),
        Err(StoreFault::Exists) => Ok(Answer::Exists),
        Err(StoreFault::Conflict(version)) => Ok(Answer::Conflict(version)),
        Err(StoreFault::NoMemory) => Err(NoMemory),
    }
}

/// Tries to write a node in the place of the one with that version. None if requests don't pass: the
/// try is lost then.
pub(crate) fn try_node(
    store: &mut Store,
    passes: bool,
    name: u32,
    given: Version,
    written: &Node,
) -> Result<Option<Answer>, NoMemory>
    ensures answer { (q : Identity) (h : List Entry) → StoreStands h store.old → passes ≡ not (loses_requests q.process h)
        → IfOk result (λ answer. answer ≡ spec.try_node q name given h) }
    ensures stands { (q : Identity) (k : ℕ) (h : List Entry) (tick : Tick) → StoreStands h store.old
        → passes ≡ not (loses_requests q.process h)
        → tick_write tick ≡ try_write (node_write name written.now) (spec.try_node q name given h)
        → OnOk result (StoreStands (add k q tick h) store.new) }
{
    if !passes {
        return Ok(None);
    }
    let object = Object::Node(written.copy()?);
    match answer(store.update(Key::node(name), given, object)) {
        Ok(answer) => Ok(Some(answer)),
        Err(NoMemory) => Err(NoMemory),
    }
}

/// Tries to delete a pod by its version and that of its node. None if requests don't pass: the
/// try is lost then.
pub fn try_delete(
    store: &mut Store,
    passes: bool,
    pod: Key,
    given: Version,
    node: u32,
    node_given: Version,
) -> Result<Option<Answer>, NoMemory>
    ensures answer { (q : Identity) (h : List Entry) → StoreStands h store.old → passes ≡ not (loses_requests q.process h)
        → IfOk result (λ answer. answer ≡ spec.try_delete q pod given node node_given h) }
    ensures stands { (q : Identity) (k : ℕ) (h : List Entry) (tick : Tick) → StoreStands h store.old
        → passes ≡ not (loses_requests q.process h)
        → tick_write tick ≡ try_write (pod, None) (spec.try_delete q pod given node node_given h)
        → OnOk result (StoreStands (add k q tick h) store.new) }
{
    if !passes {
        return Ok(None);
    }
    match answer(store.delete_pod(pod, given, Key::node(node), node_given)) {
        Ok(answer) => Ok(Some(answer)),
        Err(NoMemory) => Err(NoMemory),
    }
}

/// Tries to delete a pod by its version alone. None if requests don't pass: the try is lost then.
pub fn try_delete_alone(
    store: &mut Store,
    passes: bool,
    pod: Key,
    given: Version,
) -> Result<Option<Answer>, NoMemory>
    ensures answer { (q : Identity) (h : List Entry) → StoreStands h store.old → passes ≡ not (loses_requests q.process h)
        → IfOk result (λ answer. answer ≡ spec.try_delete_alone q pod given h) }
    ensures stands { (q : Identity) (k : ℕ) (h : List Entry) (tick : Tick) → StoreStands h store.old
        → passes ≡ not (loses_requests q.process h)
        → tick_write tick ≡ try_write (pod, None) (spec.try_delete_alone q pod given h)
        → OnOk result (StoreStands (add k q tick h) store.new) }
{
    if !passes {
        return Ok(None);
    }
    match answer(store.delete_pod_alone(pod, given)) {
        Ok(answer) => Ok(Some(answer)),
        Err(NoMemory) => Err(NoMemory),
    }
}
