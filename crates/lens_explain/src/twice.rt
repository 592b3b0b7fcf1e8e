// Keys that are there twice in one object.
ghost use Rattle.std.specs.Prelude.{◌≡◌, ◌≤◌, [], ◌∷◌, ◌++◌, IfOk, OnOk, length, take};
ghost use Rattle.std.specs.List.{AllZip};
ghost use Rattle.lens_explain.specs.Keys.{doubled, key_of, twice_at};
ghost use Rattle.lens_explain.specs.Warnings.{IsWarning, warning_text};

use crate::keys::{Key, Keys};
use crate::place::{Shown, add_shown, shown_at};
use crate::places::Places;
use kube_base::NoMemory;
use std::alloc::Global;
use trace_writer::add;

/// The most keys that are warned of.
const MOST: usize = 20;

/// Where a key stands that is there twice: both times the place of its first quote.
#[derive(Clone, Copy)]
pub(crate) struct Twice {
    pub first: usize,
    pub again: usize,
}

/// A warning of a key that is there twice in one object: both its places.
#[derive(Drop)]
pub(crate) struct Warning<'t> {
    pub first: Shown<'t>,
    pub again: Shown<'t>,
}

/// A warning of each key that is there twice in one object of a JSON text; of the first twenty of them.
pub(crate) fn warnings(alloc: Global, input: &[u8]) -> Result<Vec<Warning<'_>>, NoMemory>
    ensures { IfOk result (λ warnings. AllZip (IsWarning input.now) (doubled input.now) warnings.items) }
{
    let found = twice_in(alloc, input)?;
    warnings_of(alloc, input, &found)
}

fn warnings_of<'t>(
    alloc: Global,
    input: &'t [u8],
    found: &[Twice],
) -> Result<Vec<Warning<'t>>, NoMemory>
    ensures { IfOk result (λ warnings. AllZip (IsWarning input.now) found.now warnings.items) }
{
    let mut warnings = Vec::new(alloc);
    for twice in found {
        warnings.push(Warning {
            first: shown_at(input, twice.first),
            again: shown_at(input, twice.again),
        })?;
    }
    Ok(warnings)
}

/// Adds a warning.
#[tactic(auto, unfolding(crate::specs::Warnings::warning_text))]
pub(crate) fn add_warning(text: &mut Vec<u8>, warning: &Warning<'_>) -> Result<(), NoMemory>
    ensures { OnOk result (text.new.items ≡ text.old.items ++ warning_text warning.now) }
{
    add(
        text,
        b"warning: a key is here twice, and the last one counts\n",
    )?;
    add_shown(text, warning.first)?;
    add_shown(text, warning.again)
}

/// The first keys that are there twice.
fn twice_in(alloc: Global, input: &[u8]) -> Result<Vec<Twice>, NoMemory>
    ensures { IfOk result (λ found. found.items ≡ doubled input.now) }
{
    let mut found = Vec::new(alloc);
    let mut places = Places::new(alloc);
    let mut keys = Keys::new(alloc);
    for (place, byte) in input.iter().enumerate() {
        if let Some(key) = keys.key_at(input, place, *byte)? {
            let before = places.keep(key)?;
            add_twice(&mut found, key, before)?;
        }
    }
    Ok(found)
}

/// Adds a key that stood at a place before, if there is room for one more.
#[tactic(auto, using(crate::proofs::Doubling::none_stays))]
fn add_twice(found: &mut Vec<Twice>, key: Key<'_>, before: Option<usize>) -> Result<(), NoMemory>
    requires { length found.old.items ≤ 20 }
    ensures { OnOk result (found.new.items ≡ take 20 (found.old.items ++ twice_at (key_of key.entry) before)) }
{
    match before {
        Some(first) => add_one(
            found,
            Twice {
                first,
                again: key.place,
            },
        ),
        None => Ok(()),
    }
}

#[tactic(auto, using(crate::proofs::Doubling::full_stays, crate::proofs::Doubling::room_for_one))]
fn add_one(found: &mut Vec<Twice>, twice: Twice) -> Result<(), NoMemory>
    requires { length found.old.items ≤ 20 }
    ensures { OnOk result (found.new.items ≡ take 20 (found.old.items ++ twice ∷ [])) }
{
    if found.len() < MOST {
        found.push(twice)?;
    }
    Ok(())
}
