// Sets of pods that are alike.
ghost use Rattle.std.specs.Prelude.{◌≡◌, ◌≤◌, ◌++◌, [], codes, length, replicate, string_bytes, IfOk, IfSome, OnOk};
ghost use Rattle.serde_json.specs.View.{view, items_view};
ghost use Rattle.manifest_json.specs.Faults.{Gives};
ghost use Rattle.manifest_json.specs.Kept.{Stands};
ghost use Rattle.manifest_json.specs.Walk.{member_path};
ghost use Rattle.script_reader.specs.Fields as fields;
ghost use Rattle.script_reader.specs.Sets as spec;
ghost use Rattle.script_reader.specs.SetParts.{AreCounted, HasStem, alike};

use crate::field::{
    array_in, fault_under, member_of, namespace_at, needed_name, needed_whole, not_empty,
    object_at, path_of,
};
use crate::parts::Share;
use crate::table::{Table, known_in};
use itoa::Buffer;
use kube_base::{ListOf, Names, NoMemory};
use kube_objects::{Key, Kind, NumberList, Object, Pod, Tolerations};
use manifest_json::codes::{MISSING_KEY, OUT_OF_RANGE, TOO_MANY, WRONG_TYPE};
use manifest_json::fault::fault;
use manifest_json::{Kept, Path, ReadFault, is_name, number, number_joined, read_tolerations};
use serde_json::Value;
use std::alloc::Global;

/// As many Pods as any document may have.
const MOST_PODS: usize = 450_000;

/// The members of `on`, and how many pods they have together.
#[derive(Drop)]
pub(crate) struct Shares {
    list: ListOf<Share>,
    pods: u64,
}

/// What the pods of a set share.
#[derive(Drop)]
pub(crate) struct Pattern {
    space: u32,
    name: String,
    /// The name, and `-` behind it.
    stem: String,
    tolerations: Tolerations,
}

/// Adds the Pods of at most 100,000 sets behind the objects.
#[tactic(auto, unfolding(crate::specs::Sets::sets_in))]
pub(crate) fn sets_in(
    alloc: Global,
    names: &mut Names,
    kept: &mut Kept,
    value: &Value,
) -> Result<(), ReadFault>
    requires { Stands kept.old }
    ensures { Gives (λ _. (kept.new.items, names.new)) result
        (spec.sets_in kept.old.scale names.old kept.old.items (view value.now)) }
{
    let path = path_of(alloc, "/podSets")?;
    let all = array_in(100_000, &path, value)?;
    names.make_room(pods_about(all))?;
    sets_of(alloc, names, kept, all)
}

/// How many pods the sets say, for which room is made at once, and at most as many as a document may have. What has a fault doesn't count.
fn pods_about(sets: &[Value]) -> usize {
    let mut pods: usize = 0;
    for set in sets {
        if let Some(members) = members_of(set) {
            for member in members {
                pods = pods.saturating_add(share_about(member)).min(MOST_PODS);
            }
        }
    }
    pods
}

fn members_of(set: &Value) -> Option<&[Value]> {
    let members = set.get("on")?.as_array()?;
    Some(members.as_slice())
}

/// The last of a member's keys is how many pods are on its node.
fn share_about(member: &Value) -> usize {
    match pods_in(member) {
        Some(pods) => pods.min(MOST_PODS as u64) as usize,
        None => 0,
    }
}

fn pods_in(member: &Value) -> Option<u64> {
    let (_, pods) = member.as_object()?.last_key_value()?;
    pods.as_u64()
}

fn sets_of(
    alloc: Global,
    names: &mut Names,
    kept: &mut Kept,
    list: &[Value],
) -> Result<(), ReadFault>
    requires { Stands kept.old }
    ensures { Gives (λ _. (kept.new.items, names.new)) result
        (spec.sets_from kept.old.scale names.old 0 kept.old.items (items_view list.now)) }
{
    for (place, value) in list.iter().enumerate() {
        match set_in(alloc, names, kept, place, value) {
            Ok(()) => {}
            Err(fault) => return Err(fault),
        }
    }
    Ok(())
}

fn set_in(
    alloc: Global,
    names: &mut Names,
    kept: &mut Kept,
    place: usize,
    value: &Value,
) -> Result<(), ReadFault>
    requires { Stands kept.old }
    ensures gives { Gives (λ _. (kept.new.items, names.new)) result
        (spec.set_at kept.old.scale names.old (member_path [] (codes "/podSets/") place) kept.old.items (view value.now)) }
    ensures stands { OnOk result (Stands kept.new) }
    ensures scale { kept.new.scale ≡ kept.old.scale }
{
    let path = member_of(alloc, "/podSets/", place)?;
    set_at(alloc, names, kept, &path, value)
}

/// Adds the Pods of a set.
#[tactic(auto, unfolding(crate::specs::Sets::set_at))]
fn set_at(
    alloc: Global,
    names: &mut Names,
    kept: &mut Kept,
    path: &Path,
    value: &Value,
) -> Result<(), ReadFault>
    requires { Stands kept.old }
    ensures gives { Gives (λ _. (kept.new.items, names.new)) result
        (spec.set_at kept.old.scale names.old path.now kept.old.items (view value.now)) }
    ensures stands { OnOk result (Stands kept.new) }
    ensures scale { kept.new.scale ≡ kept.old.scale }
{
    object_at(WRONG_TYPE, path, value)?;
    known_in(Table::PodSet, path, value)?;
    let text = namespace_at(path, value)?;
    let space = number(names, text)?;
    let name = set_name_at(path, value)?;
    let tolerations = read_tolerations(alloc, names, path, value)?;
    let on = shares_at(alloc, names, path, value)?;
    if_room(path, kept, &on)?;
    let pattern = Pattern {
        space,
        name: text_of(alloc, name)?,
        stem: stem_of(alloc, name)?,
        tolerations,
    };
    let nodes = nodes_of(alloc, on.list.as_slice())?;
    pods_onto(names, kept, path, &pattern, nodes.as_slice())
}

/// A name that is short enough for a number behind it.
#[tactic(auto, unfolding(crate::specs::Sets::set_name_at))]
fn set_name_at<'v>(path: &Path, value: &'v Value) -> Result<&'v str, ReadFault>
    ensures { Gives (λ text. text.now) result (spec.set_name_at path.now (view value.now)) }
{
    let text = needed_name(path, "name", value)?;
    if_short(path, text)
}

fn if_short<'v>(path: &Path, text: &'v str) -> Result<&'v str, ReadFault>
    ensures { Gives (λ text. text.now) result (spec.if_short (fields.under path.now (codes "name")) text.now) }
{
    if text.len() <= 242 {
        Ok(text)
    } else {
        Err(fault_under(OUT_OF_RANGE, path, "name"))
    }
}

fn shares_at(
    alloc: Global,
    names: &mut Names,
    path: &Path,
    value: &Value,
) -> Result<Shares, ReadFault>
    ensures gives { Gives (λ shares. (shares.list, names.new)) result (spec.shares_at names.old path.now (view value.now)) }
    ensures pods { IfOk result AreCounted }
{
    match value.get("on") {
        Some(found) => {
            let slash = path.below("/")?;
            let here = slash.below("on")?;
            shares_in(alloc, names, &here, found)
        }
        None => Err(fault_under(MISSING_KEY, path, "on")),
    }
}

/// One to 15,000 members.
#[tactic(auto, unfolding(crate::specs::Sets::shares_in))]
fn shares_in(
    alloc: Global,
    names: &mut Names,
    path: &Path,
    value: &Value,
) -> Result<Shares, ReadFault>
    ensures gives { Gives (λ shares. (shares.list, names.new)) result (spec.shares_in names.old path.now (view value.now)) }
    ensures pods { IfOk result AreCounted }
{
    let all = array_in(15_000, path, value)?;
    let some = not_empty(path, all)?;
    shares_of(alloc, names, path, some)
}

fn shares_of(
    alloc: Global,
    names: &mut Names,
    path: &Path,
    list: &[Value],
) -> Result<Shares, ReadFault>
    requires { length list.now ≤ 15000 }
    ensures gives { Gives (λ shares. (shares.list, names.new)) result
        (spec.shares_from names.old path.now 0 [] (items_view list.now)) }
    ensures pods { IfOk result AreCounted }
{
    let mut shares = ListOf::new(alloc);
    let mut pods: u64 = 0;
    for (place, value) in list.iter().enumerate() {
        match share_in(names, path, place, value) {
            Ok(share) => {
                pods += u64::from(share.pods);
                shares.push(share)?;
            }
            Err(fault) => return Err(fault),
        }
    }
    Ok(Shares { list: shares, pods })
}

fn share_in(names: &mut Names, path: &Path, place: usize, value: &Value) -> Result<Share, ReadFault>
    ensures { Gives (λ share. (share, names.new)) result
        (spec.share_at names.old (member_path path.now (codes "/") place) (view value.now)) }
{
    match plain_share(value) {
        Some((text, pods)) => {
            let node = number(names, text)?;
            Ok(Share { node, pods })
        }
        None => {
            let here = path.member("/", place)?;
            share_at(names, &here, value)
        }
    }
}

/// The node and the pods of a member without a fault, told with no path: of one that has both keys and no more, a name and a number in range.
fn plain_share(value: &Value) -> Option<(&str, u32)>
    ensures { IfSome result (λ share. spec.IsPlainShare (view value.now) share.0.now share.1) }
{
    let members = value.as_object()?;
    let (first, node) = members.first_key_value()?;
    let (last, pods) = members.last_key_value()?;
    let text = node.as_str()?;
    let pods = pods.as_u64()?;
    if members.len() == 2
        && first.as_str() == "node"
        && last.as_str() == "pods"
        && is_name(text)
        && 1 <= pods
        && pods <= 100_000
    {
        Some((text, pods as u32))
    } else {
        None
    }
}

#[tactic(auto, unfolding(crate::specs::Sets::share_at))]
fn share_at(names: &mut Names, path: &Path, value: &Value) -> Result<Share, ReadFault>
    ensures { Gives (λ share. (share, names.new)) result
        (spec.share_at names.old path.now (view value.now)) }
{
    object_at(WRONG_TYPE, path, value)?;
    known_in(Table::Share, path, value)?;
    let text = needed_name(path, "node", value)?;
    let node = number(names, text)?;
    let pods = needed_whole(1, 100_000, path, "pods", value)?;
    Ok(Share { node, pods })
}

/// There is room for the pods.
fn if_room(path: &Path, kept: &Kept, on: &Shares) -> Result<(), ReadFault>
    requires stands { Stands kept.now }
    requires counted { AreCounted on.now }
    ensures { Gives (λ _. kept.now.items) result
        (spec.if_room kept.now.scale path.now kept.now.items (spec.pods_of on.now.list)) }
{
    if kept.has_room(on.pods) {
        Ok(())
    } else {
        Err(fault(TOO_MANY, path))
    }
}

/// The node of each pod, in order.
fn nodes_of(alloc: Global, shares: &[Share]) -> Result<NumberList, NoMemory>
    ensures { IfOk result (λ nodes. nodes ≡ spec.nodes_of shares.now) }
{
    let mut nodes = NumberList::new(alloc);
    for share in shares {
        add_nodes(&mut nodes, share.node, share.pods)?;
    }
    Ok(nodes)
}

fn add_nodes(nodes: &mut NumberList, node: u32, pods: u32) -> Result<(), NoMemory>
    ensures { OnOk result (nodes.new ≡ nodes.old ++ replicate pods node) }
{
    for _ in 0..pods {
        nodes.push(node)?;
    }
    Ok(())
}

/// Adds the pods of a set on these nodes.
fn pods_onto(
    names: &mut Names,
    kept: &mut Kept,
    path: &Path,
    pattern: &Pattern,
    nodes: &[u32],
) -> Result<(), ReadFault>
    requires stands { Stands kept.old }
    requires stem { HasStem pattern.now }
    ensures gives { Gives (λ _. (kept.new.items, names.new)) result
        (spec.pods_onto kept.old.scale names.old path.now (alike pattern.now) 0 kept.old.items nodes.now) }
    ensures stands { OnOk result (Stands kept.new) }
    ensures scale { kept.new.scale ≡ kept.old.scale }
{
    for (j, node) in nodes.iter().enumerate() {
        match pod_onto(names, kept, path, pattern, j, *node) {
            Ok(()) => {}
            Err(fault) => return Err(fault),
        }
    }
    Ok(())
}

/// Adds the J-th pod of a set.
#[tactic(auto, unfolding(crate::specs::Sets::pod_onto))]
fn pod_onto(
    names: &mut Names,
    kept: &mut Kept,
    path: &Path,
    pattern: &Pattern,
    j: usize,
    node: u32,
) -> Result<(), ReadFault>
    requires stands { Stands kept.old }
    requires stem { HasStem pattern.now }
    ensures gives { Gives (λ _. (kept.new.items, names.new)) result
        (spec.pod_onto kept.old.scale names.old path.now (alike pattern.now) j kept.old.items node) }
    ensures stands { OnOk result (Stands kept.new) }
    ensures scale { kept.new.scale ≡ kept.old.scale }
{
    let mut digits = Buffer::new();
    let name = number_joined(names, pattern.stem.as_str(), digits.format(j))?;
    let key = Key {
        kind: Kind::Pod,
        space: pattern.space,
        name,
    };
    let tolerations = pattern.tolerations.copy()?;
    kept.keep(path, (key, Object::Pod(Pod { node, tolerations })))
}

fn text_of(alloc: Global, text: &str) -> Result<String, NoMemory>
    ensures { IfOk result (λ copy. string_bytes copy ≡ text.now) }
{
    Ok(String::from_str(alloc, text)?)
}

/// What the names of a set's pods begin with.
fn stem_of(alloc: Global, name: &str) -> Result<String, NoMemory>
    ensures { IfOk result (λ stem. string_bytes stem ≡ name.now ++ codes "-") }
{
    let mut stem = String::from_str(alloc, name)?;
    stem.push_str("-")?;
    Ok(stem)
}
