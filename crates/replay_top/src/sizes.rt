// The words that ask for a generated document.
ghost use Rattle.std.specs.Prelude.{◌≡◌, ◌≤◌, IfSome, map, string_bytes};
ghost use Rattle.replay_top.specs.Sizes.{AreWithin, number, sizes_by as sizes_of_words, sizes_of};

use itoa::Buffer;

/// The seed of a generated document, and how many nodes, Pods and beats it has.
#[derive(Clone, Copy, Debug, PartialEq, Eq)]
pub struct Sizes {
    pub seed: u64,
    pub nodes: u32,
    pub pods: u32,
    pub beats: u32,
}

/// The sizes that the words after the program's name ask for, if any. Takes no memory.
pub(crate) fn sizes_in(words: &Vec<String>) -> Option<Sizes>
    ensures sizes { result ≡ sizes_of (map string_bytes words.now.items) }
    ensures within { IfSome result AreWithin }
{
    match words.as_slice() {
        [word, seed, nodes, pods, beats] => if word.as_str() == "generate" {
            sizes_by(seed.as_str(), nodes.as_str(), pods.as_str(), beats.as_str())
        } else {
            None
        },
        _ => None,
    }
}

fn sizes_by(seed: &str, nodes: &str, pods: &str, beats: &str) -> Option<Sizes>
    ensures sizes { result ≡ sizes_of_words seed.now nodes.now pods.now beats.now }
    ensures within { IfSome result AreWithin }
{
    let seed = number_in(seed, 0, u64::MAX)?;
    let nodes = number_in(nodes, 1, 1_000)?;
    let pods = number_in(pods, 0, 30_000)?;
    let beats = number_in(beats, 0, 100_000)?;
    Some(Sizes {
        seed,
        nodes: nodes as u32,
        pods: pods as u32,
        beats: beats as u32,
    })
}

/// The number that is written so in decimal, without a sign and without a leading zero, if it is in this range.
pub(crate) fn number_in(word: &str, least: u64, most: u64) -> Option<u64>
    ensures number { result ≡ number least most word.now }
    ensures within { IfSome result (λ n. (least ≤ n) × (n ≤ most)) }
{
    let read: u64 = match word.parse() {
        Ok(read) => read,
        Err(_) => return None,
    };
    let mut buffer = Buffer::new();
    if buffer.format(read) == word && least <= read && read <= most {
        Some(read)
    } else {
        None
    }
}
