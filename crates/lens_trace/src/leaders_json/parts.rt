// The members of the answer.
ghost use Rattle.std.specs.Prelude.{◌≡◌, ◌++◌, ◌∷◌, [], IfOk, OnOk, map};
ghost use Rattle.lens_json.specs.Members.{named};
ghost use Rattle.lens_json.specs.Parts.{members_in, what_of};
ghost use Rattle.lens_terms.specs.Acting.{shown as stretch_shown};
ghost use Rattle.lens_terms.specs.Terms.{shown};
ghost use Rattle.lens_terms.specs.Together.{overlap as overlap_of};
ghost use Rattle.lens_trace.specs.LeadersJson as spec;

use crate::leaders_json::lasting::Lasting;
use kube_base::NoMemory;
use lens_json::{Member, Object, Value, What};
use lens_terms::{Span, Stretch, Term, crossing, ended, overlap};
use std::alloc::Global;

/// An object for each term.
pub fn terms_in<'a>(
    alloc: Global,
    stop: u32,
    lasting: Lasting,
    found: &[Term<&'a [u8]>],
) -> Result<Vec<Object<'a>>, NoMemory>
    ensures { IfOk result (λ objects. map members_in objects.items ≡ map (spec.term_members lasting stop) (map shown found.now)) }
{
    let mut objects = Vec::new(alloc);
    for term in found {
        let members = term_members(alloc, stop, lasting, term)?;
        objects.push(Object { members })?;
    }
    Ok(objects)
}

fn term_members<'a>(
    alloc: Global,
    stop: u32,
    lasting: Lasting,
    term: &Term<&'a [u8]>,
) -> Result<Vec<Member<'a>>, NoMemory>
    ensures { IfOk result (λ members. map named members.items ≡ spec.term_members lasting stop (shown term.now)) }
{
    let until = term.until(stop);
    let mut members = vec![in alloc;
        Member::text(b"leader", term.actor),
        Member::number(b"from", u64::from(term.from)),
        Member::number(b"until", u64::from(until)),
    ]?;
    add_lasted(&mut members, lasting, until.saturating_sub(term.from))?;
    add(&mut members, Member::text(b"ended", ended(term.closing)))?;
    Ok(members)
}

fn add_lasted(members: &mut Vec<Member<'_>>, lasting: Lasting, beats: u32) -> Result<(), NoMemory>
    ensures { OnOk result (map named members.new.items ≡ map named members.old.items ++ spec.lasted lasting beats) }
{
    match lasting {
        Lasting::Told => add(members, Member::number(b"lasted", u64::from(beats))),
        Lasting::Untold => Ok(()),
    }
}

/// An object for each span in which nobody acts.
pub(crate) fn spans_in<'a>(alloc: Global, spans: &[Span]) -> Result<Vec<Object<'a>>, NoMemory>
    ensures { IfOk result (λ objects. map members_in objects.items ≡ map spec.span_members spans.now) }
{
    let mut objects = Vec::new(alloc);
    for span in spans {
        let members = span_members(alloc, *span)?;
        objects.push(Object { members })?;
    }
    Ok(objects)
}

fn span_members<'a>(alloc: Global, span: Span) -> Result<Vec<Member<'a>>, NoMemory>
    ensures { IfOk result (λ members. map named members.items ≡ spec.span_members span) }
{
    let members = vec![in alloc;
        Member::number(b"from", u64::from(span.from)),
        Member::number(b"until", u64::from(span.until)),
    ]?;
    Ok(members)
}

/// The first stretch that begins while another identity acts, if there is one.
pub(crate) fn overlap_in<'a>(
    alloc: Global,
    acting: &[Stretch<&'a [u8]>],
) -> Result<What<'a>, NoMemory>
    ensures { IfOk result (λ what. what_of what ≡ spec.overlap_data (map stretch_shown acting.now) (overlap_of (map stretch_shown acting.now))) }
{
    match overlap(acting) {
        Some(stretch) => {
            let mut members = Vec::new(alloc);
            add_overlap(&mut members, acting, stretch)?;
            Ok(What::Object(Object { members }))
        }
        None => Ok(What::Value(Value::Nothing)),
    }
}

fn add_overlap<'a>(
    members: &mut Vec<Member<'a>>,
    acting: &[Stretch<&'a [u8]>],
    stretch: &Stretch<&'a [u8]>,
) -> Result<(), NoMemory>
    ensures { OnOk result (map named members.new.items
        ≡ map named members.old.items ++ spec.overlap_members (map stretch_shown acting.now) (stretch_shown stretch.now)) }
{
    add(members, Member::number(b"line", stretch.line))?;
    add(members, Member::number(b"from", u64::from(stretch.from)))?;
    add(members, Member::text(b"who", stretch.actor))?;
    match crossing(acting, stretch) {
        Some(other) => add(members, Member::text(b"beside", other.actor)),
        None => Ok(()),
    }
}

fn add<'a>(members: &mut Vec<Member<'a>>, member: Member<'a>) -> Result<(), NoMemory>
    ensures { OnOk result (map named members.new.items ≡ map named members.old.items ++ named member.entry ∷ []) }
{
    members.push(member)?;
    Ok(())
}
