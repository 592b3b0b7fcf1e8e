// Objects of the kinds that are read.
ghost use Rattle.std.specs.Prelude.{◌≡◌, ◌<◌, ◌^◌, codes, length, option_and_then};
ghost use Rattle.std.specs.Option.{option_map};
ghost use Rattle.serde_json.specs.Find.{as_str};
ghost use Rattle.serde_json.specs.View.{view};
ghost use Rattle.manifest_json.specs.declared.codes.TheConstants.{BAD_KIND};
ghost use Rattle.manifest_json.specs.Faults.{Gives};
ghost use Rattle.manifest_json.specs.Fields as fields;
ghost use Rattle.manifest_json.specs.Fields.{AreKept};
ghost use Rattle.manifest_json.specs.Walk as walk;

use crate::codes::BAD_KIND;
use crate::fault::fault;
use crate::field::object;
use crate::lease::lease;
use crate::node::node;
use crate::pod::pod;
use crate::{Path, ReadFault};
use kube_base::Names;
use kube_objects::{Key, Kind, Object};
use serde_json::Value;
use std::alloc::Global;

/// A Node, Lease or Pod with its key, or the first refusal of the walk at or below the path.
///
/// `known` are the numbers of the controllers' names. New names get the next numbers; after a refusal further ones may be held.
#[tactic(auto, unfolding(crate::specs::Walk::object_walk))]
pub fn read_object(
    alloc: Global,
    names: &mut Names,
    known: &[u32],
    value: &Value,
    path: &Path,
) -> Result<(Key, Object), ReadFault>
    requires { length known.now < 2 ^ 32 }
    ensures gives { Gives (λ found. (found, names.new)) result
        (walk.object_walk names.old known.now path.now (view value.now)) }
    ensures names { AreKept names.old names.new }
{
    let value = object(path, value)?;
    let Some(kind) = kind(path, value)? else {
        return Err(fault(BAD_KIND, path));
    };
    of_kind(alloc, names, known, path, value, kind)
}

/// A List's item: none if it has another kind.
#[tactic(auto, unfolding(crate::specs::Walk::item_at))]
pub(crate) fn item(
    alloc: Global,
    names: &mut Names,
    known: &[u32],
    path: &Path,
    value: &Value,
) -> Result<Option<(Key, Object)>, ReadFault>
    requires { length known.now < 2 ^ 32 }
    ensures gives { Gives (λ found. (found, names.new)) result
        (walk.item_at names.old known.now path.now (view value.now)) }
    ensures names { AreKept names.old names.new }
{
    let value = object(path, value)?;
    let Some(kind) = kind(path, value)? else {
        return Ok(None);
    };
    let found = of_kind(alloc, names, known, path, value, kind)?;
    Ok(Some(found))
}

/// Which of the kinds that are read, if any.
#[tactic(auto, unfolding(crate::specs::Walk::kind_at))]
fn kind(path: &Path, value: &Value) -> Result<Option<Kind>, ReadFault>
    ensures { Gives (λ kind. kind) result (walk.kind_at path.now (view value.now)) }
{
    let version = kind_text(path, value.get("apiVersion"))?;
    let kind = kind_text(path, value.get("kind"))?;
    Ok(kind_of(version, kind))
}

fn kind_text<'v>(path: &Path, value: Option<&'v Value>) -> Result<&'v str, ReadFault>
    ensures { Gives (λ t. t.now) result
        (fields.or_refuse (option_and_then as_str (option_map (λ v. view v.now) value.entry)) BAD_KIND path.now) }
{
    match value.and_then(Value::as_str) {
        Some(text) => Ok(text),
        None => Err(fault(BAD_KIND, path)),
    }
}

/// The kind of an object by its `apiVersion` and `kind`, if it is one that is read.
pub fn kind_of(version: &str, kind: &str) -> Option<Kind>
    ensures { result ≡ walk.kind_from version.now kind.now }
{
    if version == "v1" && kind == "Node" {
        Some(Kind::Node)
    } else if version == "v1" && kind == "Pod" {
        Some(Kind::Pod)
    } else if version == "coordination.k8s.io/v1" && kind == "Lease" {
        Some(Kind::Lease)
    } else {
        None
    }
}

#[tactic(auto, unfolding(crate::specs::Walk::of_kind_at))]
fn of_kind(
    alloc: Global,
    names: &mut Names,
    known: &[u32],
    path: &Path,
    value: &Value,
    kind: Kind,
) -> Result<(Key, Object), ReadFault>
    requires { length known.now < 2 ^ 32 }
    ensures gives { Gives (λ found. (found, names.new)) result
        (walk.of_kind_at names.old known.now path.now (view value.now) kind) }
    ensures names { AreKept names.old names.new }
{
    match kind {
        Kind::Node => node(alloc, names, path, value),
        Kind::Lease => lease(names, known, path, value),
        Kind::Pod => pod(alloc, names, path, value),
    }
}
