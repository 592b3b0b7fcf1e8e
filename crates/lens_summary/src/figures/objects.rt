// Objects one behind the other.
ghost use Rattle.std.specs.Prelude.{◌≡◌, ◌++◌, ◌∷◌, [], OnOk, map};
ghost use Rattle.lens_json.specs.Members.{named};
ghost use Rattle.lens_json.specs.Parts.{members_in};

use kube_base::NoMemory;
use lens_json::{Member, Object};

/// Adds the object of these members.
pub(crate) fn add_object<'a>(
    objects: &mut Vec<Object<'a>>,
    members: Vec<Member<'a>>,
) -> Result<(), NoMemory>
    ensures { OnOk result (map members_in objects.new.items
        ≡ map members_in objects.old.items ++ map named members.entry.items ∷ []) }
{
    objects.push(Object { members })?;
    Ok(())
}
