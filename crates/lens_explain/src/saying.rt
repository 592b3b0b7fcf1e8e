// What is said about a refusal.
ghost use Rattle.std.specs.Prelude.{IfOk};
ghost use Rattle.lens_explain.specs.Places.{IsPlace, IsShownOf};

use crate::broken::hint;
use crate::known::{allowed_at, allowed_in_set, is_known, keys_in};
use crate::nearest::nearest;
use crate::odd::{Odd, odd_spot};
use crate::place::{Shown, shown_at};
use crate::rules::{add_order, add_rule};
use crate::sentence::sentence;
use crate::stop::stop_of;
use crate::walk::{follow, last_step};
use kube_base::NoMemory;
use script_reader::table::{Table, Version};
use std::alloc::Global;
use trace_writer::add;

/// An input that isn't JSON.
const BAD_JSON: u32 = 1;

/// A key that isn't known.
const UNKNOWN_KEY: u32 = 3;

/// What is said about a refusal.
#[derive(Drop)]
pub(crate) struct Reason<'t> {
    /// What is shown of a place of the input.
    pub shown: Shown<'t>,
    /// Further lines, a sentence on the code at least.
    pub more: Vec<u8>,
}

/// A place of the input.
#[derive(Clone, Copy)]
struct Spot<'t> {
    pub place: usize,
    pub odd: Option<Odd<'t>>,
}

/// What is said about the refusal of an input by this code and path.
pub(crate) fn why<'t>(
    alloc: Global,
    input: &'t [u8],
    code: u32,
    path: &[u8],
) -> Result<Reason<'t>, NoMemory>
    ensures { IfOk result (λ why. IsShownOf input.now code path.now why.shown) }
{
    let spot = spot_of(alloc, input, code, path)?;
    let more = said(alloc, input, code, path, &spot)?;
    Ok(Reason {
        shown: shown_at(input, spot.place),
        more,
    })
}

/// The place that is shown: that of the key that isn't known, of the byte at which the text stops to be JSON, or of the last value on the
/// path that is there.
fn spot_of<'t>(alloc: Global, input: &'t [u8], code: u32, path: &[u8]) -> Result<Spot<'t>, NoMemory>
    ensures { IfOk result (λ spot. IsPlace input.now code path.now spot.place) }
{
    match code {
        BAD_JSON => {
            let place = stop_of(alloc, input)?;
            Ok(Spot { place, odd: None })
        }
        UNKNOWN_KEY => {
            let odd = odd_spot(alloc, input, path)?;
            Ok(Spot {
                place: odd.place,
                odd: Some(odd),
            })
        }
        _ => {
            let found = follow(alloc, input, path)?;
            Ok(Spot {
                place: found.place,
                odd: None,
            })
        }
    }
}

/// The lines behind that of the place.
fn said(
    alloc: Global,
    input: &[u8],
    code: u32,
    path: &[u8],
    spot: &Spot<'_>,
) -> Result<Vec<u8>, NoMemory> {
    let mut text = Vec::new(alloc);
    add(&mut text, sentence(code).as_bytes())?;
    add(&mut text, b"\n")?;
    match code {
        1 => add(&mut text, hint(input, spot.place).as_bytes())?,
        3 => add_key(alloc, &mut text, path, spot.odd)?,
        4..=6 => add_allowed(&mut text, path)?,
        7 => add_rule(alloc, &mut text, input, path)?,
        9 => add_order(alloc, &mut text, input, path)?,
        _ => {}
    }
    Ok(text)
}

/// Adds which key isn't known, and the nearest one that is.
fn add_key(
    alloc: Global,
    text: &mut Vec<u8>,
    path: &[u8],
    odd: Option<Odd<'_>>,
) -> Result<(), NoMemory> {
    let Some(odd) = odd else {
        return Ok(());
    };
    let Some(key) = odd.key else {
        return Ok(());
    };
    if path == "/".as_bytes() && is_of_manifest(key) {
        return add(
            text,
            b"This looks like what kubectl get -o json writes: tools/from-cluster makes a document of a list.\n",
        );
    }
    if is_of_member(odd.table, key) {
        return add(text, b"It is one of the objects in on.\n");
    }
    let known = keys_in(in_version(odd.table, Version::Four));
    match nearest(alloc, key, known)? {
        Some(near) if near.as_bytes() == key => {
            add_version(text, key, in_version(odd.table, Version::Three))
        }
        Some(near) => {
            add(text, b"The nearest one that is: ")?;
            add(text, near.as_bytes())?;
            add(text, b".\n")
        }
        None => add_known(text, known),
    }
}

/// Adds from which version on a key is known, by the table of version 3.
fn add_version(text: &mut Vec<u8>, key: &[u8], third: Table) -> Result<(), NoMemory> {
    if is_known(third, key) {
        add(
            text,
            b"It is one of version 2 and later: write \"version\": 2.\n",
        )
    } else {
        add(text, b"It is one of version 4: write \"version\": 4.\n")
    }
}

/// The same object in a document of this version.
fn in_version(table: Table, version: Version) -> Table {
    match table {
        Table::Top(_) => Table::Top(matches!(version, Version::Four)),
        Table::Settings(_) => Table::Settings(version),
        Table::Controller(_) => Table::Controller(version),
        Table::Kubelet | Table::PodSet | Table::Share | Table::Event(_) => table,
    }
}

/// Whether a key is one that each manifest and each list has.
fn is_of_manifest(key: &[u8]) -> bool {
    matches!(key, b"apiVersion" | b"kind" | b"metadata" | b"items")
}

/// Whether a key of a set of pods is one of the members of its `on`.
fn is_of_member(table: Table, key: &[u8]) -> bool {
    matches!(table, Table::PodSet) && matches!(key, b"node" | b"pods")
}

/// Adds which keys are known.
fn add_known(text: &mut Vec<u8>, known: &[&str]) -> Result<(), NoMemory> {
    add(text, b"These are:")?;
    for key in known {
        add(text, b" ")?;
        add(text, key.as_bytes())?;
    }
    add(text, b".\n")
}

/// What may stand at the key at a path's end.
fn allowed(path: &[u8]) -> Option<&'static str> {
    if path.starts_with(b"/podSets/") {
        allowed_in_set(last_step(path))
    } else {
        allowed_at(last_step(path))
    }
}

/// Adds what may stand at the key at a path's end.
fn add_allowed(text: &mut Vec<u8>, path: &[u8]) -> Result<(), NoMemory> {
    match allowed(path) {
        Some(allowed) if !path.starts_with(b"/objects/") => {
            add(text, last_step(path))?;
            add(text, b" takes ")?;
            add(text, allowed.as_bytes())?;
            add(text, b".\n")
        }
        _ => Ok(()),
    }
}
