// Where the index lists an object.
ghost use Rattle.std.specs.Prelude.{◌≡◌, ℕ, ◌&&◌, false};
ghost use Rattle.kube_objects.specs.declared.key.Key.{Key};
ghost use Rattle.kube_objects.specs.Keys.{key_eq};
ghost use Rattle.kube_objects.specs.Stored.{node_key};
ghost use Rattle.watch_cache.specs.Kept.{is_node, is_pod_on};
ghost use Rattle.watch_cache.specs.Listed.{lists_node, lists_pod};

use kube_objects::{Key, Kind, Object};

/// Where the index lists an object: a node by its name, a pod by the name of its node.
#[derive(Clone, Copy, Debug, PartialEq, Eq)]
pub(crate) enum Listing {
    Nowhere,
    Node(u32),
    Pod(u32, Key),
}

/// Where an object under this key is listed.
pub(crate) fn listed_as(key: Key, object: &Object) -> Listing
    ensures nodes { (n : ℕ) → lists_node result n ≡ (key_eq key (node_key n) && is_node object.now) }
    ensures pods { (n : ℕ) (k : Key) → lists_pod result n k ≡ (is_pod_on n object.now && key_eq key k) }
{
    match object {
        Object::Node(_) => node_listing(key),
        Object::Lease(_) => Listing::Nowhere,
        Object::Pod(pod) => Listing::Pod(pod.node, key),
    }
}

// Where a node under this key is listed: nowhere, where the key isn't a node's.
fn node_listing(key: Key) -> Listing
    ensures nodes { (n : ℕ) → lists_node result n ≡ key_eq key (node_key n) }
    ensures pods { (n : ℕ) (k : Key) → lists_pod result n k ≡ false }
{
    if key.kind == Kind::Node && key.space == 0 {
        return Listing::Node(key.name);
    }
    Listing::Nowhere
}
