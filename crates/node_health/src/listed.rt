// Names in a list, and changes of what is kept of the listed nodes.
ghost use Rattle.std.specs.Prelude.{◌≡◌, ◌==◌, ◌&&◌, not, ℕ, true, None, option_map, filter, if◌then◌else◌};
ghost use Rattle.key_map.specs.Values.{value_at};
ghost use Rattle.kube_objects.specs.Stored as stored;
ghost use Rattle.std.specs.List.Sorted.{IsNonDecreasing};
ghost use Rattle.node_health.specs.Kept as kept;

use crate::known::Known;
use key_map::KeyMap;
use kube_base::Local;
use kube_objects::Key;

/// Whether a list has a name. A list that is known to ascend is searched by halves.
pub(crate) fn is_listed(names: &[u32], ascends: bool, name: u32) -> bool
    ensures { (ascends ≡ true → IsNonDecreasing names.now) → result ≡ kept.is_listed names.now name }
{
    if ascends {
        return names.binary_search(&name).is_ok();
    }
    names.contains(&name)
}

/// Forgets each of these nodes that isn't listed.
pub(crate) fn forget_unlisted(map: &mut KeyMap<Known>, names: &[u32], listed: &[u32], ascends: bool)
    requires { ascends ≡ true → IsNonDecreasing listed.now }
    ensures { (node : ℕ) → value_at map.new (stored.node_key node)
        ≡ (if kept.is_listed names.now node && not (kept.is_listed listed.now node) then None else value_at map.old (stored.node_key node)) }
{
    let mut rest = names;
    while let Some((name, others)) = rest.split_first() {
        forget(map, *name, listed, ascends);
        rest = others;
    }
}

/// Forgets a node, unless it is listed.
fn forget(map: &mut KeyMap<Known>, name: u32, listed: &[u32], ascends: bool)
    requires { ascends ≡ true → IsNonDecreasing listed.now }
    ensures { (node : ℕ) → value_at map.new (stored.node_key node)
        ≡ (if (name == node) && not (kept.is_listed listed.now node) then None else value_at map.old (stored.node_key node)) }
{
    if is_listed(listed, ascends, name) {
        return;
    }
    map.remove(&Key::node(name));
}

/// Each of these nodes that is known is heard of at this reading.
pub(crate) fn reset_listed(map: &mut KeyMap<Known>, names: &[u32], now: Local)
    ensures { (node : ℕ) → value_at map.new (stored.node_key node)
        ≡ (if kept.is_listed names.now node then option_map (kept.at_reading now.0) (value_at map.old (stored.node_key node))
        else value_at map.old (stored.node_key node)) }
{
    let mut rest = names;
    while let Some((name, others)) = rest.split_first() {
        reset(map, *name, now);
        rest = others;
    }
}

/// A node that is known is heard of at this reading.
fn reset(map: &mut KeyMap<Known>, name: u32, now: Local)
    ensures { (node : ℕ) → value_at map.new (stored.node_key node)
        ≡ (if name == node then option_map (kept.at_reading now.0) (value_at map.old (stored.node_key node))
        else value_at map.old (stored.node_key node)) }
{
    let key = Key::node(name);
    let Some(known) = map.get(&key) else {
        return;
    };
    let heard = known.at(now);
    // What is there is changed in its place, which takes no memory.
    let _ = map.insert(key, heard);
}

/// Each of these names that is listed stays. Takes no memory. If no more are listed than there are, they are the listed ones, in that order,
/// afterwards: else each that isn't listed is taken out.
pub(crate) fn list_anew(names: &mut Vec<u32>, listed: &[u32], ascends: bool)
    requires { ascends ≡ true → IsNonDecreasing listed.now }
    ensures { (node : ℕ) → kept.is_listed listed.now node ≡ true → kept.is_listed names.old.items node ≡ true
        → kept.is_listed names.new.items node ≡ true }
{
    if names.len() < listed.len() {
        keep_listed(names, listed, ascends);
        return;
    }
    names.truncate(listed.len());
    names.as_mut_slice().copy_from_slice(listed);
}

/// Takes out each name that isn't listed.
fn keep_listed(names: &mut Vec<u32>, listed: &[u32], ascends: bool)
    requires { ascends ≡ true → IsNonDecreasing listed.now }
    ensures { names.new.items ≡ filter (kept.is_listed listed.now) names.old.items }
{
    names.retain(|name| is_listed(listed, ascends, *name));
}
