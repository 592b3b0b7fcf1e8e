// What is known of a beginning of a text.
ghost use Rattle.std.specs.Prelude.{◌≡◌, ◌<◌, ◌^◌, [], IfOk, OnOk};
ghost use Rattle.lens_explain.specs.Fronts as spec;
ghost use Rattle.lens_explain.specs.Fronts.{FrontAt, begin_behind, begin_outside, closing_behind};
ghost use Rattle.lens_explain.specs.Marks.{mark_of, mark_outside, side_behind};
ghost use Rattle.lens_explain.specs.declared.scan.Side.TheVariants.{Outside};

use crate::scan::{Mark, Side, mark_at, outside_mark, side_at};
use kube_base::NoMemory;
use std::alloc::Global;

/// A beginning of a text.
#[derive(Drop)]
pub(crate) struct Front {
    /// Where the next byte stands.
    pub side: Side,
    /// Where the text or word begins that isn't over, or how many bytes there are.
    pub begin: usize,
    /// The brackets that close what is open, those of the innermost last.
    pub closing: Vec<u8>,
}

/// What is known of a text as the beginning of another one.
pub(crate) fn front_of(alloc: Global, text: &[u8]) -> Result<Front, NoMemory>
    ensures begin { IfOk result (λ front. front.begin ≡ (spec.front_of text.now).begin) }
    ensures closing { IfOk result (λ front. front.closing.items ≡ (spec.front_of text.now).closing) }
{
    let mut front = Front::new(alloc);
    for (place, byte) in text.iter().enumerate() {
        front.take(place, *byte)?;
    }
    Ok(front)
}

impl Front {
    fn new(alloc: Global) -> Front
        ensures side { result.side ≡ Outside }
        ensures begin { result.begin ≡ 0 }
        ensures closing { result.closing.items ≡ [] }
    {
        Front {
            side: Side::Outside,
            begin: 0,
            closing: Vec::new(alloc),
        }
    }

    /// Goes over a byte at its place.
    fn take(&mut self, place: usize, byte: u8) -> Result<(), NoMemory>
        requires { place < 2 ^ 63 }
        ensures side { OnOk result (self.new.side ≡ side_behind self.old.side byte) }
        ensures begin { OnOk result (self.new.begin ≡ begin_behind self.old.side byte place self.old.begin) }
        ensures closing { OnOk result (self.new.closing.items ≡ closing_behind (mark_of self.old.side byte) self.old.closing.items) }
    {
        let mark = mark_at(self.side, byte);
        self.begin = begin_at(self.side, byte, place, self.begin);
        self.side = side_at(self.side, byte);
        self.close(mark)
    }

    /// Keeps the brackets that close what is open behind a mark.
    fn close(&mut self, mark: Mark) -> Result<(), NoMemory>
        ensures side { self.new.side ≡ self.old.side }
        ensures begin { self.new.begin ≡ self.old.begin }
        ensures closing { OnOk result (self.new.closing.items ≡ closing_behind mark self.old.closing.items) }
    {
        match mark {
            Mark::Object => self.closing.push(b'}')?,
            Mark::Array => self.closing.push(b']')?,
            Mark::Close => {
                self.closing.pop();
            }
            Mark::Within | Mark::Plain | Mark::Comma | Mark::Colon => {}
        }
        Ok(())
    }
}

/// Where the text or word begins that isn't over behind a byte.
fn begin_at(side: Side, byte: u8, place: usize, begin: usize) -> usize
    requires { place < 2 ^ 63 }
    ensures { result ≡ begin_behind side byte place begin }
{
    match (side, byte) {
        (Side::Outside, b'"') => place,
        (Side::Outside, _) => outside_begin(byte, place, begin),
        (Side::Text, b'"') => place + 1,
        (Side::Text, _) | (Side::Escaped, _) => begin,
    }
}

fn outside_begin(byte: u8, place: usize, begin: usize) -> usize
    requires { place < 2 ^ 63 }
    ensures { result ≡ begin_outside (mark_outside byte) place begin }
{
    match outside_mark(byte) {
        Mark::Plain => begin,
        Mark::Within | Mark::Object | Mark::Array | Mark::Close | Mark::Comma | Mark::Colon => place
            + 1,
    }
}
