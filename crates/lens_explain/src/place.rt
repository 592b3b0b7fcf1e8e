// Places in a text, as a person counts them.
ghost use Rattle.std.specs.Prelude.{◌≡◌, ◌==◌, ◌++◌, ◌≤◌, ◌<◌, ℕ, List, IfSome, OnOk, length, take, drop, count_by, position, reverse};
ghost use Rattle.std.specs.Option.{unwrap_or};
ghost use Rattle.lens_explain.specs.Places.{IsShown, column_of, line_of, shown_text};

use crate::keys::depth_behind;
use crate::scan::{Mark, Scan};
use kube_base::NoMemory;
use std::str::from_utf8;
use trace_writer::{add, add_number};

/// The most bytes that are shown of what stands at a place.
const MOST: usize = 60;

/// What is shown of a place of a text: its line and column, both counted from 1, columns in bytes, and a beginning of what stands there.
#[derive(Clone, Copy)]
pub(crate) struct Shown<'t> {
    pub line: u64,
    pub column: u64,
    pub text: &'t [u8],
}

impl<'t> Shown<'t> {
    /// With no byte more than is UTF-8.
    pub fn in_utf8(self) -> Shown<'t>
        ensures { (input : List ℕ) (place : ℕ) → IsShown input place self.entry → IsShown input place result }
    {
        let whole = match from_utf8(self.text) {
            Ok(_) => self.text.len(),
            Err(error) => error.valid_up_to().min(self.text.len()),
        };
        let (text, _) = self.text.split_at(whole);
        Shown { text, ..self }
    }
}

/// What stands before a place of a text, and the rest.
pub(crate) fn cut_at(text: &[u8], place: usize) -> (&[u8], &[u8])
    ensures front { result.0.now ≡ take place text.now }
    ensures rest { result.1.now ≡ drop place text.now }
{
    text.split_at(place.min(text.len()))
}

/// What is shown of a place of the input.
pub(crate) fn shown_at(input: &[u8], place: usize) -> Shown<'_>
    ensures { IsShown input.now place result }
{
    let (front, rest) = cut_at(input, place);
    let (text, _) = rest.split_at(shown_of(rest));
    Shown {
        line: line_in(front),
        column: column_in(front),
        text,
    }
}

/// Adds the line on a place.
#[tactic(auto, unfolding(crate::specs::Places::shown_text))]
pub(crate) fn add_shown(text: &mut Vec<u8>, shown: Shown<'_>) -> Result<(), NoMemory>
    ensures { OnOk result (text.new.items ≡ text.old.items ++ shown_text shown.entry) }
{
    add(text, b"line ")?;
    add_number(text, shown.line)?;
    add(text, b", column ")?;
    add_number(text, shown.column)?;
    add(text, b": ")?;
    add(text, shown.text)?;
    add(text, b"\n")
}

/// The line in which these bytes end, counted from 1.
fn line_in(front: &[u8]) -> u64
    ensures { result ≡ line_of front.now }
{
    feeds(front) + 1
}

/// How many line feeds a text has.
fn feeds(text: &[u8]) -> u64
    ensures value { result ≡ count_by (λ byte. byte == 10) text.now }
    ensures few { result ≤ length text.now }
{
    text.iter().filter(|byte| **byte == b'\n').count() as u64
}

/// The column behind these bytes, counted from 1.
fn column_in(front: &[u8]) -> u64
    ensures { result ≡ column_of front.now }
{
    behind_feed(front) as u64 + 1
}

/// How many bytes stand behind the last line feed, or in all if there is none.
fn behind_feed(text: &[u8]) -> usize
    ensures value { result ≡ unwrap_or (position (λ byte. byte == 10) (reverse text.now)) (length text.now) }
    ensures few { result ≤ length text.now }
{
    match last_feed(text) {
        Some(behind) => behind,
        None => text.len(),
    }
}

/// How many bytes stand behind the last line feed.
fn last_feed(text: &[u8]) -> Option<usize>
    ensures value { result ≡ position (λ byte. byte == 10) (reverse text.now) }
    ensures within { IfSome result (λ n. n < length text.now) }
{
    text.iter().rev().position(|byte| *byte == b'\n')
}

/// How many bytes are shown of a rest: those of its first value, or of a key with its value, on its line, and at most 60.
fn shown_of(rest: &[u8]) -> usize
    ensures { result ≤ length rest.now }
{
    let end = value_end(rest).min(rest.len());
    if end <= MOST {
        end
    } else {
        whole_of(rest, MOST)
    }
}

/// Where the first value of a text ends, or its line, or more than is shown.
fn value_end(text: &[u8]) -> usize {
    let mut scan = Scan::new();
    let mut depth = 0_usize;
    for (place, byte) in text.iter().enumerate() {
        if *byte < 32 || *byte == 127 || place > MOST {
            return place;
        }
        let mark = scan.mark(place, *byte);
        if place > 0 && depth == 0 && (mark == Mark::Comma || mark == Mark::Close) {
            return place;
        }
        depth = depth_behind(depth, mark);
    }
    text.len()
}

/// So many bytes of a text, or up to three fewer, if these would end within a character of UTF-8.
fn whole_of(text: &[u8], most: usize) -> usize
    requires { most ≤ length text.now }
    ensures { result ≤ length text.now }
{
    for fewer in 0..4_usize {
        if fewer <= most && starts_character(text, most - fewer) {
            return most - fewer;
        }
    }
    most
}

/// Whether a character of UTF-8 starts at this place, or the text ends there.
fn starts_character(text: &[u8], place: usize) -> bool {
    match text.get(place) {
        Some(byte) => *byte < 128 || *byte >= 192,
        None => true,
    }
}
