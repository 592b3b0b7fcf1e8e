//! The run as a static library: one function that C calls, with all in memory. What its caller owes stands in `c/kube_replay.h`.
#![tactic(auto)]

ghost use Rattle.std.specs.Prelude.{◌≡◌, Some, [], IsUtf8};
ghost use Rattle.replay_top.specs.Claims.{Claims, IsWell};
ghost use Rattle.replay_top.specs.Outcome.{outcome};
ghost use Rattle.kube_replay_c.specs.Calls.{words_in, Holds, EndsIn};

mod answer;
mod borrowed_source;
mod words;

use crate::answer::{OUT_OF_MEMORY, nothing, run_in_memory};
use crate::words::{WordsFault, words_of};
use std::alloc::Global;

/// Words that aren't UTF-8.
const BAD_WORDS: u32 = 6;

/// Does what the words say, a text with a space between two, with the input. It returns the exit status of the program, puts the first
/// bytes of what the program would write into the buffer, and tells how many were put and how many there are in all.
#[unsafe(no_mangle)]
pub extern "C" fn kube_replay_run(
    alloc: Global,
    words: &[u8],
    input: &[u8],
    buffer: &mut [u8],
    put: &mut usize,
    whole: &mut usize,
) -> u32
    ensures text { IsUtf8 words.now
        → EndsIn (outcome (words_in words.now) input.now) buffer.old buffer.new put.new whole.new result }

    // A text that isn't UTF-8 has no words, and nothing is written.
    ensures not_utf8 { ¬ IsUtf8 words.now → (result ≡ 6) × Holds [] buffer.old buffer.new put.new whole.new }

    // What is proved of the history of the document, and of what was written of it.
    ensures claims { result ≡ 0 → Claims (words_in words.now) (Some input.now) }
    ensures well { result ≡ 0 → IsWell (words_in words.now) (Some input.now) }
{
    let answer = match words_of(alloc, words) {
        Ok(words) => run_in_memory(alloc, &words, input, buffer),
        Err(WordsFault::NotUtf8) => nothing(BAD_WORDS),
        Err(WordsFault::NoMemory) => nothing(OUT_OF_MEMORY),
    };
    *put = answer.put;
    *whole = answer.whole;
    answer.status
}
