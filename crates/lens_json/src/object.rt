// The text of an object.
ghost use Rattle.std.specs.Prelude.{◌≡◌, ◌++◌, ◌∷◌, OnOk, map};
ghost use Rattle.json.specs.Print.{quoted};
ghost use Rattle.serde_json.specs.Written.{compact_text, comma_if};
ghost use Rattle.lens_json.specs.Members.{data_of, named, object_of};

use crate::member::Member;
use crate::quoting::add_quoted;
use crate::value::add_value;
use kube_base::NoMemory;
use trace_writer::add;

/// Adds the object of these members, in their order, on one line and without spaces.
pub fn add_object(text: &mut Vec<u8>, members: &[Member<'_>]) -> Result<(), NoMemory>
    ensures { OnOk result (text.new.items ≡ text.old.items ++ compact_text (object_of (map named members.now))) }
{
    add(text, b"{")?;
    let mut later = false;
    for member in members {
        add_comma(text, later)?;
        add_member(text, member)?;
        later = true;
    }
    add(text, b"}")
}

/// Adds a comma if something stands before.
pub(crate) fn add_comma(text: &mut Vec<u8>, later: bool) -> Result<(), NoMemory>
    ensures { OnOk result (text.new.items ≡ text.old.items ++ comma_if later) }
{
    if later { add(text, b",") } else { Ok(()) }
}

fn add_member(text: &mut Vec<u8>, member: &Member<'_>) -> Result<(), NoMemory>
    ensures { OnOk result (text.new.items
        ≡ text.old.items ++ (quoted member.now.name.now ++ 58 ∷ compact_text (data_of member.now.value))) }
{
    add_quoted(text, member.name)?;
    add(text, b":")?;
    add_value(text, member.value)
}
