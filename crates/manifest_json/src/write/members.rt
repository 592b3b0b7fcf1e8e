// The members of an object that is written.
ghost use Rattle.std.specs.Prelude.{◌≡◌, Some, OnOk};
ghost use Rattle.std.specs.Option.{option_map};
ghost use Rattle.serde_json.specs.Data.{no_members, object, string};
ghost use Rattle.serde_json.specs.View.{view};
ghost use Rattle.manifest_json.specs.Members.{seen};
ghost use Rattle.manifest_json.specs.Written as written;

use kube_base::NoMemory;
use serde_json::{Map, Value};
use std::alloc::Global;

/// The members of an object.
#[derive(Drop)]
pub(crate) struct Members {
    alloc: Global,
    map: Map<String, Value>,
}

impl Members {
    pub(crate) fn new(alloc: Global) -> Members
        ensures { seen result ≡ no_members }
    {
        Members {
            alloc,
            map: Map::new(alloc),
        }
    }

    /// Adds a field, if it is there.
    #[tactic(auto, unfolding(crate::specs::Written::with_field))]
    pub(crate) fn put(&mut self, key: &str, value: Option<Value>) -> Result<(), NoMemory>
        ensures { OnOk result (seen self.new ≡ written.with_field key.now (option_map view value) (seen self.old)) }
    {
        match value {
            Some(value) => {
                serde_json::put(&mut self.map, self.alloc, key, value)?;
                Ok(())
            }
            None => Ok(()),
        }
    }

    /// Adds a text.
    pub(crate) fn put_text(&mut self, key: &str, text: &str) -> Result<(), NoMemory>
        ensures { OnOk result (seen self.new ≡ written.with_field key.now (Some (string text.now)) (seen self.old)) }
    {
        let value = Value::try_from_str(self.alloc, text)?;
        self.put(key, Some(value))
    }

    /// Adds a text, unless it is empty.
    #[tactic(auto, unfolding(crate::specs::Written::with_field, crate::specs::Written::filled_text))]
    pub(crate) fn put_unless_empty(&mut self, key: &str, text: &str) -> Result<(), NoMemory>
        ensures { OnOk result (seen self.new ≡ written.with_field key.now (written.filled_text text.now) (seen self.old)) }
    {
        if text.is_empty() {
            return Ok(());
        }
        self.put_text(key, text)
    }

    /// The object of the members.
    pub(crate) fn into_value(self) -> Value
        ensures { view result ≡ object (seen self) }
    {
        Value::Object(self.map)
    }

    /// The object, if it has a member.
    #[tactic(auto, unfolding(crate::specs::Written::filled_object))]
    pub(crate) fn into_value_unless_empty(self) -> Option<Value>
        ensures { option_map view result ≡ written.filled_object (seen self) }
    {
        if self.map.len() == 0 {
            None
        } else {
            Some(self.into_value())
        }
    }
}
