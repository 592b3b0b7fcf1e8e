// Times under the two inputs' keys, and fields of manifests that only these look at.
ghost use Rattle.std.specs.Prelude.{◌++◌};
ghost use Rattle.std.specs.Option.{option_map};
ghost use Rattle.serde_json.specs.View.{view};
ghost use Rattle.manifest_json.specs.Faults.{Gives};
ghost use Rattle.script_reader.specs.Fields.{under};
ghost use Rattle.pod_inputs.specs.Fields as spec;

use kube_base::{Wall, read_time};
use manifest_json::codes::{OUT_OF_RANGE, WRONG_JSON};
use manifest_json::{Path, ReadFault, fault_below};
use script_reader::field::{needed, or_refuse, text_in};
use serde_json::Value;

/// A time under a key that is required.
pub(crate) fn needed_instant(path: &Path, key: &str, object: &Value) -> Result<Wall, ReadFault>
    ensures { Gives (λ at. at) result
        (spec.needed_instant path.now key.now (view object.now)) }
{
    let found = needed(path, key, object)?;
    instant_in(path, key, found)
}

#[tactic(auto, unfolding(crate::specs::Fields::instant_in))]
fn instant_in(path: &Path, key: &str, found: &Value) -> Result<Wall, ReadFault>
    ensures { Gives (λ at. at) result
        (spec.instant_in (under path.now key.now) (view found.now)) }
{
    let text = text_in(path, key, found)?;
    or_refuse(read_time(text.as_bytes()), OUT_OF_RANGE, path, key)
}

/// A truth value, which is false if it is missing.
pub(crate) fn flag(path: &Path, key: &str, value: Option<&Value>) -> Result<bool, ReadFault>
    ensures { Gives (λ flag. flag) result
        (spec.flag_at (path.now ++ key.now) (option_map (λ v. view v.now) value.entry)) }
{
    match value {
        None => Ok(false),
        Some(found) => match found.as_bool() {
            Some(flag) => Ok(flag),
            None => Err(fault_below(WRONG_JSON, path, key)),
        },
    }
}
