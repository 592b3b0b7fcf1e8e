// The objects of the lines behind the first.
ghost use Rattle.std.specs.Prelude.{◌≡◌, ◌++◌, OnOk, map};
ghost use Rattle.std.specs.List.{flat_map};
ghost use Rattle.trace_lines.specs.Reads.{seen};
ghost use Rattle.lens_json.specs.Members.{named};
ghost use Rattle.lens_trace.specs.Lines as spec;
ghost use Rattle.lens_trace.specs.LineMembers.{line_members};

use crate::lines::members::{number, text};
use crate::lines::said::{add_said, kind_word};
use kube_base::NoMemory;
use lens_json::{Member, add_object};
use std::alloc::Global;
use trace_lines::Line;
use trace_writer::add;

/// Adds the objects of lines, each ended by a line feed.
pub(crate) fn add_lines<'a>(
    json: &mut Vec<u8>,
    alloc: Global,
    lines: &[Line<&'a [u8]>],
) -> Result<(), NoMemory>
    ensures { OnOk result (json.new.items ≡ json.old.items ++ flat_map (λ line. spec.ended (spec.line_json (seen line))) lines.now) }
{
    let mut members = Vec::new(alloc);
    for line in lines {
        add_line(json, &mut members, line)?;
    }
    Ok(())
}

/// Adds the object of a line and a line feed. The members of the line before are let go.
#[tactic(auto, unfolding(crate::specs::Lines::line_json))]
fn add_line<'a>(
    json: &mut Vec<u8>,
    members: &mut Vec<Member<'a>>,
    line: &Line<&'a [u8]>,
) -> Result<(), NoMemory>
    ensures { OnOk result (json.new.items ≡ json.old.items ++ spec.ended (spec.line_json (seen line.now))) }
{
    members.clear();
    gather(members, line)?;
    add_object(json, members)?;
    add(json, b"\n")
}

/// Adds the members of a line.
fn gather<'a>(members: &mut Vec<Member<'a>>, line: &Line<&'a [u8]>) -> Result<(), NoMemory>
    ensures { OnOk result (map named members.new.items ≡ map named members.old.items ++ line_members (seen line.now)) }
{
    number(members, b"beat", u64::from(line.beat))?;
    text(members, b"actor", line.actor)?;
    text(members, b"kind", kind_word(&line.says))?;
    add_said(members, &line.says)
}
