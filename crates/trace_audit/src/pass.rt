// The lines of a trace, read from the last to the first.
ghost use Rattle.std.specs.Prelude.{◌≡◌, ◌+◌, ◌<◌, ◌≤◌, ◌^◌, ◌==◌, List, ℕ, [], ◌∷◌, OnOk, Some, None};
ghost use Rattle.trace_lines.specs.declared.header.Header.{Header};
ghost use Rattle.trace_lines.specs.Forms.{line_of};
ghost use Rattle.trace_lines.specs.Reads.{seen};
ghost use Rattle.trace_audit.specs.Passes.{PassStands, IsReady, is_below, wrong_with};

use crate::role::role_of;
use kube_base::{NameHash, NoMemory};
use std::alloc::Global;
use trace_lines::{Header, Line, read_line};
use trace_terms::Review;

/// What is known of the lines so far, from the last one back.
#[derive(Drop)]
pub(crate) struct Pass {
    pub(crate) header: Header,
    /// The first line that is wrong or missing.
    pub(crate) wrong: Option<u64>,
    /// The beat of the first of these lines, if it is of a form.
    pub(crate) next: Option<u32>,
    pub(crate) review: Review,
}

impl Pass {
    /// What stands behind the last line feed, which has to be empty. The number is the one that it would have as a line.
    /// Identities and zones are hashed by the key of the trace.
    pub(crate) fn new(
        alloc: Global,
        hash: NameHash,
        header: Header,
        number: u64,
        unended: &[u8],
    ) -> Pass
        requires { header.end ≤ 604800000 }
        ensures stands { PassStands header number (unended.now ∷ []) result }
        ensures ready { IsReady result }
        ensures leads { result.review.leads ≡ 0 }
        ensures taints { result.review.taints ≡ 0 }
    {
        let wrong = if unended.len() == 0 {
            None
        } else {
            Some(number)
        };
        Pass {
            header,
            wrong,
            next: None,
            review: Review::new(alloc, hash, header.beat_millis, header.end),
        }
    }

    /// Takes the line before those so far.
    pub(crate) fn take(&mut self, number: u64, text: &[u8]) -> Result<(), NoMemory>
        requires number { number + 1 < 2 ^ 64 }
        requires ready { IsReady self.old }
        requires leads { self.old.review.leads + 1 < 2 ^ 64 }
        requires taints { self.old.review.taints + 1 < 2 ^ 64 }
        ensures stands { (header : Header) (line : List ℕ) (lines : List (List ℕ)) → PassStands header (number + 1) (line ∷ lines) self.old
            → OnOk result (PassStands header number (text.now ∷ line ∷ lines) self.new) }
        ensures ready { OnOk result (IsReady self.new) }
        ensures leads { self.new.review.leads ≤ self.old.review.leads + 1 }
        ensures taints { self.new.review.taints ≤ self.old.review.taints + 1 }
    {
        match read_line(text) {
            Some(line) => self.take_line(number, &line),
            None => {
                self.wrong = Some(number);
                self.next = None;
                Ok(())
            }
        }
    }

    fn take_line(&mut self, number: u64, line: &Line<&[u8]>) -> Result<(), NoMemory>
        requires number { number + 1 < 2 ^ 64 }
        requires ready { IsReady self.old }
        requires leads { self.old.review.leads + 1 < 2 ^ 64 }
        requires taints { self.old.review.taints + 1 < 2 ^ 64 }
        ensures stands { (header : Header) (text before : List ℕ) (lines : List (List ℕ))
            → line_of text ≡ Some (seen line.now) → PassStands header (number + 1) (before ∷ lines) self.old
            → OnOk result (PassStands header number (text ∷ before ∷ lines) self.new) }
        ensures ready { OnOk result (IsReady self.new) }
        ensures leads { self.new.review.leads ≤ self.old.review.leads + 1 }
        ensures taints { self.new.review.taints ≤ self.old.review.taints + 1 }
    {
        self.wrong = self.wrong_with(number, line.beat);
        self.next = Some(line.beat);
        match self.wrong {
            Some(_) => Ok(()),
            None => self
                .review
                .take(number, line.beat, line.actor, role_of(&line.says)),
        }
    }

    /// The first wrong line with one more, of this beat, before those so far.
    fn wrong_with(&self, number: u64, beat: u32) -> Option<u64>
        requires { number + 1 < 2 ^ 64 }
        ensures { result ≡ wrong_with number beat self.now }
    {
        if beat > self.header.end {
            Some(number)
        } else if is_before(self.next, beat) {
            Some(number + 1)
        } else {
            self.wrong
        }
    }
}

fn is_before(beat: Option<u32>, other: u32) -> bool
    ensures { result ≡ is_below beat other }
{
    match beat {
        Some(beat) => beat < other,
        None => false,
    }
}
