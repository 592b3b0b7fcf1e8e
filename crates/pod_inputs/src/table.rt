// The objects of the two inputs, and their keys.
ghost use Rattle.std.specs.Prelude.{◌≡◌};
ghost use Rattle.serde_json.specs.View.{view};
ghost use Rattle.manifest_json.specs.Faults.{Gives};
ghost use Rattle.pod_inputs.specs.Tables as spec;

use manifest_json::{Path, ReadFault};
use script_reader::field::object_at;
use script_reader::table::{Keys, known_in};
use serde_json::Value;

/// The objects of the two inputs.
#[derive(Clone, Copy, Debug)]
pub(crate) enum Table {
    Collect,
    Place,
    Missing,
}

impl Keys for Table {
    ghost is_key = { spec.is_key_of };

    fn has_key(self, key: &str) -> bool {
        match self {
            Table::Collect => {
                key == "now" || key == "threshold" || key == "missing" || key == "objects"
            }
            Table::Place => key == "objects",
            Table::Missing => key == "node" || key == "since",
        }
    }
}

/// The value is an object, else a refusal with this code, and has no key that its table doesn't have.
#[tactic(auto, unfolding(crate::specs::Tables::object_in))]
pub(crate) fn object_in(
    table: Table,
    code: u32,
    path: &Path,
    value: &Value,
) -> Result<(), ReadFault>
    ensures { Gives (λ _. view value.now) result (spec.object_in table code path.now (view value.now)) }
{
    object_at(code, path, value)?;
    known_in(table, path, value)
}
