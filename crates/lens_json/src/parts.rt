// The text of a whole answer.
ghost use Rattle.std.specs.Prelude.{◌≡◌, ◌++◌, ◌∷◌, OnOk, map};
ghost use Rattle.json.specs.Print.{quoted};
ghost use Rattle.serde_json.specs.Written.{compact_text};
ghost use Rattle.lens_json.specs.Members.{object_of};
ghost use Rattle.lens_json.specs.Parts.{list_of, members_in, part_of, what_of};

use crate::object::{add_comma, add_object};
use crate::part::{Object, Part, What};
use crate::quoting::add_quoted;
use crate::value::add_value;
use kube_base::NoMemory;
use trace_writer::add;

/// Adds the object of these members, in their order, on one line and without spaces.
pub fn add_parts(text: &mut Vec<u8>, parts: &[Part<'_>]) -> Result<(), NoMemory>
    ensures { OnOk result (text.new.items ≡ text.old.items ++ compact_text (object_of (map part_of parts.now))) }
{
    add(text, b"{")?;
    let mut later = false;
    for part in parts {
        add_comma(text, later)?;
        add_part(text, part)?;
        later = true;
    }
    add(text, b"}")
}

fn add_part(text: &mut Vec<u8>, part: &Part<'_>) -> Result<(), NoMemory>
    ensures { OnOk result (text.new.items
        ≡ text.old.items ++ (quoted part.now.name.now ++ 58 ∷ compact_text (what_of part.now.what))) }
{
    add_quoted(text, part.name)?;
    add(text, b":")?;
    add_what(text, &part.what)
}

fn add_what(text: &mut Vec<u8>, what: &What<'_>) -> Result<(), NoMemory>
    ensures { OnOk result (text.new.items ≡ text.old.items ++ compact_text (what_of what.now)) }
{
    match what {
        What::Value(value) => add_value(text, *value),
        What::Object(object) => add_object(text, &object.members),
        What::List(objects) => add_list(text, objects),
    }
}

fn add_list(text: &mut Vec<u8>, objects: &[Object<'_>]) -> Result<(), NoMemory>
    ensures { OnOk result (text.new.items ≡ text.old.items ++ compact_text (list_of (map members_in objects.now))) }
{
    add(text, b"[")?;
    let mut later = false;
    for object in objects {
        add_comma(text, later)?;
        add_object(text, &object.members)?;
        later = true;
    }
    add(text, b"]")
}
