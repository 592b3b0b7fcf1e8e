// The lines on a document.
ghost use Rattle.std.specs.Prelude.{◌≡◌, ◌++◌, OnOk, decimal, map};
ghost use Rattle.std.specs.List.{flat_map};
ghost use Rattle.lens_explain.specs.Places.{shown_text};
ghost use Rattle.lens_explain.specs.Slips as slip_spec;
ghost use Rattle.lens_explain.specs.Slips.{slip_of, slip_text};
ghost use Rattle.lens_explain.specs.Warnings.{warning_text};
ghost use Rattle.lens_explain.specs.Replies.{formed_text, well_formed_text};

use crate::place::{Shown, add_shown};
use crate::slips::{Slip, add_slip, add_unheard, is_unheard};
use crate::twice::{Warning, add_warning};
use kube_base::NoMemory;
use script_reader::Document;
use trace_writer::{add, add_number};

/// Adds the line on a place and further lines.
pub(crate) fn add_why(text: &mut Vec<u8>, shown: Shown<'_>, more: &[u8]) -> Result<(), NoMemory>
    ensures { OnOk result (text.new.items ≡ text.old.items ++ (shown_text shown.entry ++ more.now)) }
{
    add_shown(text, shown)?;
    add(text, more)
}

fn add_warnings(text: &mut Vec<u8>, found: &[Warning<'_>]) -> Result<(), NoMemory>
    ensures { OnOk result (text.new.items ≡ text.old.items ++ flat_map warning_text found.now) }
{
    for warning in found {
        add_warning(text, warning)?;
    }
    Ok(())
}

fn add_slips(text: &mut Vec<u8>, slips: &[Slip]) -> Result<(), NoMemory>
    ensures { OnOk result (text.new.items ≡ text.old.items ++ flat_map slip_text (map slip_of slips.now)) }
{
    for slip in slips {
        add_slip(text, slip)?;
    }
    Ok(())
}

/// Adds the lines on a document that is well formed.
#[tactic(auto, unfolding(crate::specs::Replies::formed_text))]
pub(crate) fn add_lines(
    text: &mut Vec<u8>,
    document: &Document,
    found: &[Warning<'_>],
    slips: &[Slip],
) -> Result<(), NoMemory>
    requires { map slip_of slips.now ≡ slip_spec.slips document.now }
    ensures { OnOk result (text.new.items ≡ text.old.items ++ formed_text document.now found.now) }
{
    add_counts(text, document)?;
    add_warnings(text, found)?;
    add_slips(text, slips)?;
    add_unheard(text, is_unheard(document))
}

/// Adds the counts of a document.
#[tactic(auto, unfolding(crate::specs::Replies::well_formed_text))]
fn add_counts(text: &mut Vec<u8>, document: &Document) -> Result<(), NoMemory>
    ensures { OnOk result (text.new.items ≡ text.old.items ++ well_formed_text document.now) }
{
    add_count(
        text,
        b"well-formed controllers=",
        document.controllers.as_slice().len() as u64,
    )?;
    add_count(
        text,
        b" kubelets=",
        document.kubelets.as_slice().len() as u64,
    )?;
    add_count(
        text,
        b" objects=",
        document.objects.items.as_slice().len() as u64,
    )?;
    add_count(text, b" skipped=", document.objects.skipped)?;
    add_count(text, b" events=", document.events.as_slice().len() as u64)?;
    add(text, b"\n")
}

/// Adds a label and a number in decimal.
fn add_count(text: &mut Vec<u8>, label: &[u8], count: u64) -> Result<(), NoMemory>
    ensures { OnOk result (text.new.items ≡ text.old.items ++ (label.now ++ decimal count)) }
{
    add(text, label)?;
    add_number(text, count)
}
