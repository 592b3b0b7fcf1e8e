// The keys of the objects in a JSON text.
ghost use Rattle.std.specs.Prelude.{◌≡◌, [], IfOk, OnOk, option_copied, option_map};
ghost use Rattle.lens_explain.specs.Keys as spec;
ghost use Rattle.lens_explain.specs.Keys.{key_at, opened};
ghost use Rattle.lens_explain.specs.Marks.{mark_of, scanned, unscanned};

use crate::scan::{Mark, Scan, Span};
use kube_base::NoMemory;
use std::alloc::Global;

/// A key: the place of its object, that of its first quote, and its text.
#[derive(Clone, Copy)]
pub(crate) struct Key<'t> {
    pub owner: usize,
    pub place: usize,
    pub text: &'t [u8],
}

/// What is known behind some bytes of a text.
#[derive(Drop)]
pub(crate) struct Keys {
    pub scan: Scan,
    /// Where the objects and arrays begin that are open, the innermost last.
    pub outer: Vec<usize>,
}

impl Keys {
    pub(crate) fn new(alloc: Global) -> Keys
        ensures scan { result.scan ≡ unscanned }
        ensures outer { result.outer.items ≡ [] }
    {
        Keys {
            scan: Scan::new(),
            outer: Vec::new(alloc),
        }
    }

    /// Goes over a byte, and tells the key that it stands behind, if it is the colon of one.
    pub(crate) fn key_at<'t>(
        &mut self,
        input: &'t [u8],
        place: usize,
        byte: u8,
    ) -> Result<Option<Key<'t>>, NoMemory>
        ensures key { IfOk result (λ key. option_map spec.key_of key
            ≡ key_at input.now (mark_of self.old.scan.side byte) self.old.scan.last self.old.outer.items) }
        ensures scan { OnOk result (self.new.scan ≡ scanned self.old.scan place byte) }
        ensures outer { OnOk result (self.new.outer.items ≡ opened (mark_of self.old.scan.side byte) place self.old.outer.items) }
    {
        let last = self.scan.last;
        match self.scan.mark(place, byte) {
            Mark::Object | Mark::Array => {
                self.outer.push(place)?;
                Ok(None)
            }
            Mark::Close => {
                self.outer.pop();
                Ok(None)
            }
            Mark::Colon => Ok(key_in(input, last, self.outer.last())),
            Mark::Within | Mark::Plain | Mark::Comma => Ok(None),
        }
    }
}

fn key_in<'t>(input: &'t [u8], span: Span, owner: Option<&usize>) -> Option<Key<'t>>
    ensures { option_map spec.key_of result ≡ spec.key_in input.now span (option_copied owner.entry) }
{
    match owner {
        Some(owner) => Some(Key {
            owner: *owner,
            place: span.quote,
            text: span.of(input),
        }),
        None => None,
    }
}

/// How many objects and arrays are open behind a mark.
pub(crate) fn depth_behind(depth: usize, mark: Mark) -> usize {
    match mark {
        Mark::Object | Mark::Array => depth.saturating_add(1),
        Mark::Close => depth.saturating_sub(1),
        Mark::Within | Mark::Plain | Mark::Comma | Mark::Colon => depth,
    }
}
