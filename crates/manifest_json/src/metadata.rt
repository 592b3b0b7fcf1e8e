// Names and namespaces.
ghost use Rattle.std.specs.Prelude.{◌≡◌, ◌++◌, codes};
ghost use Rattle.std.specs.Option.{option_map};
ghost use Rattle.serde_json.specs.View.{view};
ghost use Rattle.manifest_json.specs.Faults.{Gives};
ghost use Rattle.manifest_json.specs.Fields.{AreKept};
ghost use Rattle.manifest_json.specs.Walk as walk;

use crate::codes::{BAD_NAME, WRONG_JSON};
use crate::fault::fault_below;
use crate::field::{field_in, name_number, number, text};
use crate::{Path, ReadFault};
use kube_base::Names;
use kube_objects::{Key, Kind};
use serde_json::Value;

/// The number of `metadata.name`.
#[tactic(auto, unfolding(crate::specs::Walk::name_at))]
pub(crate) fn name(
    names: &mut Names,
    path: &Path,
    metadata: Option<&Value>,
) -> Result<u32, ReadFault>
    ensures gives { Gives (λ n. (n, names.new)) result
        (walk.name_at names.old path.now (option_map (λ v. view v.now) metadata.entry)) }
    ensures names { AreKept names.old names.new }
{
    let text = name_text(path, field_in(metadata, "name"))?;
    name_number(names, path, "/metadata/name", text)
}

fn name_text<'v>(path: &Path, value: Option<&'v Value>) -> Result<&'v str, ReadFault>
    ensures { Gives (λ t. t.now) result
        (walk.name_text_at (path.now ++ codes "/metadata/name") (option_map (λ v. view v.now) value.entry)) }
{
    match value {
        None => Err(fault_below(BAD_NAME, path, "/metadata/name")),
        Some(found) => match found.as_str() {
            Some(text) => Ok(text),
            None => Err(fault_below(WRONG_JSON, path, "/metadata/name")),
        },
    }
}

/// The number of `metadata.namespace`.
#[tactic(auto, unfolding(crate::specs::Walk::space_at))]
fn space(names: &mut Names, path: &Path, metadata: Option<&Value>) -> Result<u32, ReadFault>
    ensures gives { Gives (λ n. (n, names.new)) result
        (walk.space_at names.old path.now (option_map (λ v. view v.now) metadata.entry)) }
    ensures names { AreKept names.old names.new }
{
    let text = space_text(path, field_in(metadata, "namespace"))?;
    name_number(names, path, "/metadata/namespace", text)
}

fn space_text<'v>(path: &Path, value: Option<&'v Value>) -> Result<&'v str, ReadFault>
    ensures { Gives (λ t. t.now) result
        (walk.space_text_at (path.now ++ codes "/metadata/namespace") (option_map (λ v. view v.now) value.entry)) }
{
    match value {
        None => Ok("default"),
        Some(found) => match found.as_str() {
            Some(text) => Ok(text),
            None => Err(fault_below(WRONG_JSON, path, "/metadata/namespace")),
        },
    }
}

/// The key of a Lease or a Pod.
#[tactic(auto, unfolding(crate::specs::Walk::spaced_key_at))]
pub(crate) fn spaced_key(
    names: &mut Names,
    path: &Path,
    kind: Kind,
    metadata: Option<&Value>,
) -> Result<Key, ReadFault>
    ensures gives { Gives (λ key. (key, names.new)) result
        (walk.spaced_key_at names.old path.now kind (option_map (λ v. view v.now) metadata.entry)) }
    ensures names { AreKept names.old names.new }
{
    let space = space(names, path, metadata)?;
    let name = name(names, path, metadata)?;
    Ok(Key { kind, space, name })
}

/// The number of a text that counts as empty if it is missing.
#[tactic(auto, unfolding(crate::specs::Walk::text_number_at))]
pub(crate) fn text_number(
    names: &mut Names,
    path: &Path,
    key: &str,
    value: Option<&Value>,
) -> Result<u32, ReadFault>
    ensures gives { Gives (λ n. (n, names.new)) result
        (walk.text_number_at names.old path.now key.now (option_map (λ v. view v.now) value.entry)) }
    ensures names { AreKept names.old names.new }
{
    let text = text(WRONG_JSON, path, key, value)?;
    number(names, text)
}
