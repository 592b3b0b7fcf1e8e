// The lines on the margins of a document.
ghost use Rattle.std.specs.Prelude.{◌≡◌, ◌++◌, ◌<◌, OnOk, decimal, length};
ghost use Rattle.script_reader.specs.Documents.{doc_of};
ghost use Rattle.script_reader.specs.Lawful.{IsLawfulDoc, IsWellNamed};
ghost use Rattle.lens_room.specs.Lines.{margin_line, bound_text, slack_text, least_text, stall_text, line_at, lines_below, lines_text, verdict_text};

use crate::late::add_late;
use itoa::Buffer;
use kube_base::NoMemory;
use lens_margin::{Margin, controller_margin};
use script_reader::Document;
use trace_writer::{add, name_of};

/// Adds the line of each controller, that on a reply for which no lease is enough, and the verdict.
#[tactic(auto, unfolding(crate::specs::Lines::lines_text))]
pub(crate) fn add_lines(text: &mut Vec<u8>, document: &Document, safe: bool) -> Result<(), NoMemory>
    requires lawful { IsLawfulDoc (doc_of document.now) }
    requires named { IsWellNamed document.now.names (doc_of document.now) }
    ensures { OnOk result (text.new.items ≡ text.old.items ++ lines_text document.now safe) }
{
    add_controllers(text, document)?;
    add_late(text, document)?;
    add(text, verdict_line(safe))
}

fn add_controllers(text: &mut Vec<u8>, document: &Document) -> Result<(), NoMemory>
    requires lawful { IsLawfulDoc (doc_of document.now) }
    requires named { IsWellNamed document.now.names (doc_of document.now) }
    ensures { OnOk result (text.new.items ≡ text.old.items ++ lines_below document.now (length document.now.controllers)) }
{
    for controller in 0..document.controllers.as_slice().len() {
        add_controller(text, document, controller)?;
    }
    Ok(())
}

fn add_controller(
    text: &mut Vec<u8>,
    document: &Document,
    controller: usize,
) -> Result<(), NoMemory>
    requires lawful { IsLawfulDoc (doc_of document.now) }
    requires named { IsWellNamed document.now.names (doc_of document.now) }
    requires controller { controller < length document.now.controllers }
    ensures { OnOk result (text.new.items ≡ text.old.items ++ line_at document.now controller) }
{
    let name = document.controllers.as_slice()[controller].name;
    add_line(
        text,
        name_of(&document.names, name),
        controller_margin(document, controller),
    )
}

/// The last line.
pub fn verdict_line(safe: bool) -> &'static [u8]
    ensures { result.now ≡ verdict_text safe }
{
    if safe { b"safe\n" } else { b"unsafe\n" }
}

/// Adds the line of a controller of this name.
#[tactic(auto, unfolding(crate::specs::Lines::margin_line))]
pub fn add_line(text: &mut Vec<u8>, name: &[u8], margin: Margin) -> Result<(), NoMemory>
    ensures { OnOk result (text.new.items ≡ text.old.items ++ margin_line name.now margin) }
{
    add(text, name)?;
    add_bound(text, margin.lease, margin.must_exceed)?;
    add_slack(text, margin.lease, margin.must_exceed)?;
    add_least(text, margin.least_seconds)?;
    add_stall(text, margin.longest_stall)
}

#[tactic(auto, unfolding(crate::specs::Lines::bound_text))]
fn add_bound(text: &mut Vec<u8>, lease: u128, must_exceed: u128) -> Result<(), NoMemory>
    ensures { OnOk result (text.new.items ≡ text.old.items ++ bound_text lease must_exceed) }
{
    add_number(text, b" lease=", lease)?;
    add_number(text, b"ms must-exceed=", must_exceed)?;
    Ok(())
}

#[tactic(auto, unfolding(crate::specs::Lines::slack_text))]
fn add_slack(text: &mut Vec<u8>, lease: u128, must_exceed: u128) -> Result<(), NoMemory>
    ensures { OnOk result (text.new.items ≡ text.old.items ++ slack_text lease must_exceed) }
{
    if must_exceed <= lease {
        add_number(text, b"ms slack=", lease - must_exceed)
    } else {
        add_number(text, b"ms slack=-", must_exceed - lease)
    }
}

#[tactic(auto, unfolding(crate::specs::Lines::least_text))]
fn add_least(text: &mut Vec<u8>, seconds: Option<u32>) -> Result<(), NoMemory>
    ensures { OnOk result (text.new.items ≡ text.old.items ++ least_text seconds) }
{
    match seconds {
        Some(seconds) => {
            add_number(text, b"ms least-lease=", u128::from(seconds))?;
            add(text, b"s")
        }
        None => add(text, b"ms least-lease=none"),
    }
}

#[tactic(auto, unfolding(crate::specs::Lines::stall_text))]
fn add_stall(text: &mut Vec<u8>, stall: Option<u128>) -> Result<(), NoMemory>
    ensures { OnOk result (text.new.items ≡ text.old.items ++ stall_text stall) }
{
    match stall {
        Some(millis) => {
            add_number(text, b" longest-stall=", millis)?;
            add(text, b"ms\n")
        }
        None => add(text, b" longest-stall=none\n"),
    }
}

// Adds a label and a number in decimal.
fn add_number(text: &mut Vec<u8>, label: &[u8], number: u128) -> Result<(), NoMemory>
    ensures { OnOk result (text.new.items ≡ text.old.items ++ (label.now ++ decimal number)) }
{
    let mut buffer = Buffer::new();
    add(text, label)?;
    add(text, buffer.format(number).as_bytes())
}
