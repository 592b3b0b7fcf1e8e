// The words of a text.
ghost use Rattle.std.specs.Prelude.{◌≡◌, IfOk, IfErr, IsUtf8, map, string_bytes};
ghost use Rattle.kube_replay_c.specs.Calls.{words_in};

use std::alloc::{AllocError, Global};
use std::str::from_utf8;

/// Why a text has no list of words.
#[derive(Clone, Copy, Debug, PartialEq, Eq)]
pub(crate) enum WordsFault {
    NotUtf8,
    NoMemory,
}

/// The words between the spaces of a text; between two spaces, and in an empty text, stands an empty word.
pub(crate) fn words_of(alloc: Global, text: &[u8]) -> Result<Vec<String>, WordsFault>
    ensures words { IfOk result (λ words. map string_bytes words.items ≡ words_in text.now) }
    ensures utf8 { IfOk result (λ words. IsUtf8 text.now) }
    ensures fault { IfErr result (λ fault. fault ≡ WordsFault.NotUtf8 → ¬ IsUtf8 text.now) }
    ensures no_memory { IfErr result (λ fault. fault ≡ WordsFault.NoMemory → IsUtf8 text.now) }
{
    let Ok(text) = from_utf8(text) else {
        return Err(WordsFault::NotUtf8);
    };
    match pieces_of(alloc, text) {
        Ok(pieces) => copied(alloc, pieces.as_slice()),
        Err(_) => Err(WordsFault::NoMemory),
    }
}

/// The parts of a text between the spaces.
fn pieces_of(alloc: Global, text: &str) -> Result<Vec<&str>, AllocError>
    ensures { IfOk result (λ pieces. map (λ piece. piece.now) pieces.items ≡ words_in text.now) }
{
    text.split(' ').collect(alloc)
}

/// A copy of each text.
fn copied(alloc: Global, pieces: &[&str]) -> Result<Vec<String>, WordsFault>
    ensures words { IfOk result (λ words. map string_bytes words.items ≡ map (λ piece. piece.now) pieces.now) }
    ensures fault { IfErr result (λ fault. fault ≡ WordsFault.NoMemory) }
{
    let mut words = Vec::new(alloc);
    for piece in pieces {
        let Ok(word) = String::from_str(alloc, piece) else {
            return Err(WordsFault::NoMemory);
        };
        if words.push(word).is_err() {
            return Err(WordsFault::NoMemory);
        }
    }
    Ok(words)
}
