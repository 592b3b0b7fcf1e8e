// The lines of a trace's text.
ghost use Rattle.std.specs.Prelude.{◌≡◌, ◌++◌, IfOk, OnOk, map, filter_map};
ghost use Rattle.trace_lines.specs.Forms.{line_of};
ghost use Rattle.trace_lines.specs.Reads.{seen};
ghost use Rattle.trace_audit.specs.Entries.{lines_of};
ghost use Rattle.lens_trace.specs.Read.{line_in};

use kube_base::NoMemory;
use std::alloc::Global;
use trace_lines::{Line, cut, read_line};

/// The lines of a text that are of a form, in order.
pub fn read_lines<'a>(alloc: Global, text: &'a [u8]) -> Result<Vec<Line<&'a [u8]>>, NoMemory>
    ensures { IfOk result (λ lines. map seen lines.items ≡ filter_map line_of (lines_of text.now)) }
{
    let mut lines = Vec::new(alloc);
    let mut rest = text;
    'lines: while let Some((line, behind)) = cut(rest, b'\n') {
        add(&mut lines, line)?;
        rest = behind;
    }
    add(&mut lines, rest)?;
    Ok(lines)
}

/// Adds the line that a text is, if it is of a form.
fn add<'a>(lines: &mut Vec<Line<&'a [u8]>>, text: &'a [u8]) -> Result<(), NoMemory>
    ensures { OnOk result (map seen lines.new.items ≡ map seen lines.old.items ++ line_in text.now) }
{
    if let Some(line) = read_line(text) {
        lines.push(line)?;
    }
    Ok(())
}
