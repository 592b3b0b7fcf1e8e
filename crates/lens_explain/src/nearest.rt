// The word that is nearest to another one.

use kube_base::NoMemory;
use std::alloc::Global;
use strsim::generic_levenshtein;

/// The most letters of a word for which a nearest one is looked for.
const LONGEST: usize = 64;

/// Of these words one that another one begins, or else the one that the fewest edits make of it, if these are at most a third of its
/// letters, and one.
pub(crate) fn nearest(
    alloc: Global,
    word: &[u8],
    known: &[&'static str],
) -> Result<Option<&'static str>, NoMemory> {
    if word.is_empty() || word.len() > LONGEST {
        return Ok(None);
    }
    match begun_by(word, known) {
        Some(other) => Ok(Some(other)),
        None => by_edits(alloc, word, known),
    }
}

/// The first of these words that another one begins.
fn begun_by(word: &[u8], known: &[&'static str]) -> Option<&'static str> {
    for other in known {
        if other.as_bytes().starts_with(word) {
            return Some(*other);
        }
    }
    None
}

fn by_edits(
    alloc: Global,
    word: &[u8],
    known: &[&'static str],
) -> Result<Option<&'static str>, NoMemory> {
    let mut found = None;
    let mut least = word.len() / 3 + 2;
    for other in known {
        let edits = generic_levenshtein(alloc, word, other.as_bytes())?;
        if edits < least {
            least = edits;
            found = Some(*other);
        }
    }
    Ok(found)
}
