// How many lines of each kind there are, and how what they write was answered.
ghost use Rattle.std.specs.Prelude.{◌≡◌, ◌++◌, IfOk, OnOk, map};
ghost use Rattle.lens_json.specs.Members.{named};
ghost use Rattle.lens_json.specs.Parts.{members_in};
ghost use Rattle.trace_lines.specs.Reads.{seen};
ghost use Rattle.lens_summary.specs.FigureTotals as spec;

use crate::figures::objects::add_object;
use crate::outcome::Outcome;
use crate::totals::{count, kinds, outcomes};
use kube_base::NoMemory;
use lens_json::{Member, Object};
use std::alloc::Global;
use trace_lines::Line;

/// An object for each kind of which there are lines, and one for all lines.
pub(crate) fn totals_in<'a>(
    alloc: Global,
    lines: &[Line<&[u8]>],
) -> Result<Vec<Object<'a>>, NoMemory>
    ensures { IfOk result (λ objects. map members_in objects.items ≡ spec.totals (map seen lines.now)) }
{
    let mut objects = Vec::new(alloc);
    let kinds = kinds();
    for word in &kinds {
        add_kind(&mut objects, alloc, *word, lines)?;
    }
    let outcomes = outcomes(alloc, None, lines)?;
    let members = count_members(alloc, b"all", &outcomes)?;
    add_object(&mut objects, members)?;
    Ok(objects)
}

/// Adds the object of a kind, if there are lines of it.
#[tactic(auto, unfolding(crate::specs::FigureTotals::kind_objects))]
fn add_kind<'a>(
    objects: &mut Vec<Object<'a>>,
    alloc: Global,
    word: &'a [u8],
    lines: &[Line<&[u8]>],
) -> Result<(), NoMemory>
    ensures { OnOk result (map members_in objects.new.items
        ≡ map members_in objects.old.items ++ spec.kind_objects (map seen lines.now) word.now) }
{
    let outcomes = outcomes(alloc, Some(word), lines)?;
    if outcomes.is_empty() {
        return Ok(());
    }
    let members = count_members(alloc, word, &outcomes)?;
    add_object(objects, members)
}

fn count_members<'a>(
    alloc: Global,
    word: &'a [u8],
    outcomes: &[Outcome],
) -> Result<Vec<Member<'a>>, NoMemory>
    ensures { IfOk result (λ members. map named members.items ≡ spec.count_members word.now outcomes.now) }
{
    let members = vec![in alloc;
        Member::text(b"kind", word),
        Member::number(b"lines", outcomes.len() as u64),
        Member::number(b"written", count(outcomes, Outcome::Written)),
        Member::number(b"conflict", count(outcomes, Outcome::Conflict)),
        Member::number(b"absent", count(outcomes, Outcome::Absent)),
        Member::number(b"exists", count(outcomes, Outcome::Exists)),
    ]?;
    Ok(members)
}
