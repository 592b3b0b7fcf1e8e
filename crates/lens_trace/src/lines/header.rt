// The object of the first line.
ghost use Rattle.std.specs.Prelude.{◌≡◌, ◌++◌, OnOk, map};
ghost use Rattle.lens_json.specs.Members.{named};
ghost use Rattle.lens_trace.specs.Lines as spec;
ghost use Rattle.lens_trace.specs.LineMembers as word;

use crate::lines::members::{number, text};
use kube_base::NoMemory;
use lens_json::{Member, add_object};
use std::alloc::Global;
use trace_lines::Header;
use trace_writer::add;

/// Adds the object of the first line and a line feed.
#[tactic(auto, unfolding(crate::specs::Lines::header_json))]
pub(crate) fn add_header(json: &mut Vec<u8>, alloc: Global, header: Header) -> Result<(), NoMemory>
    ensures { OnOk result (json.new.items ≡ json.old.items ++ spec.ended (spec.header_json header)) }
{
    let mut members = Vec::new(alloc);
    gather(&mut members, header)?;
    add_object(json, &members)?;
    add(json, b"\n")
}

/// Adds the members of the first line.
fn gather(members: &mut Vec<Member<'_>>, header: Header) -> Result<(), NoMemory>
    ensures { OnOk result (map named members.new.items ≡ map named members.old.items ++ word.header_members header) }
{
    text(members, b"kind", b"trace")?;
    number(members, b"version", 1)?;
    number(members, b"beatMillis", u64::from(header.beat_millis))?;
    number(members, b"end", u64::from(header.end))?;
    text(members, b"premise", premise_word(header.premise))
}

/// The word for a premise.
pub fn premise_word(premise: bool) -> &'static [u8]
    ensures { result.now ≡ word.premise_word premise }
{
    if premise { b"yes" } else { b"no" }
}
