// Members of an object that is being gathered.
ghost use Rattle.std.specs.Prelude.{◌≡◌, ◌++◌, ◌∷◌, [], OnOk, map};
ghost use Rattle.lens_json.specs.Members as member;
ghost use Rattle.lens_json.specs.Members.{named};
ghost use Rattle.lens_trace.specs.LineMembers as spec;

use kube_base::NoMemory;
use lens_json::Member;
use trace_lines::Answer;

/// Adds a member that is a number.
pub(crate) fn number<'a>(
    members: &mut Vec<Member<'a>>,
    name: &'a [u8],
    number: u64,
) -> Result<(), NoMemory>
    ensures { OnOk result (map named members.new.items ≡ map named members.old.items ++ member.nat name.now number ∷ []) }
{
    members.push(Member::number(name, number))?;
    Ok(())
}

/// Adds a member that is a text.
pub(crate) fn text<'a>(
    members: &mut Vec<Member<'a>>,
    name: &'a [u8],
    text: &'a [u8],
) -> Result<(), NoMemory>
    ensures { OnOk result (map named members.new.items ≡ map named members.old.items ++ member.text name.now text.now ∷ []) }
{
    members.push(Member::text(name, text))?;
    Ok(())
}

/// Adds the members of how a write was answered.
pub(crate) fn answer<'a>(members: &mut Vec<Member<'a>>, answer: Answer) -> Result<(), NoMemory>
    ensures { OnOk result (map named members.new.items ≡ map named members.old.items ++ spec.answer_members answer) }
{
    match answer {
        Answer::Done(version) => number(members, b"v", version),
        Answer::Conflict(version) => {
            text(members, b"answer", b"conflict")?;
            number(members, b"v", version)
        }
        Answer::Absent => text(members, b"answer", b"absent"),
        Answer::Exists => text(members, b"answer", b"exists"),
    }
}
