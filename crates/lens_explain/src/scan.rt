// The marks of a JSON text, byte by byte.
ghost use Rattle.std.specs.Prelude.{◌≡◌};
ghost use Rattle.lens_explain.specs.Marks.{mark_of, mark_outside, scanned, side_behind, span_behind, text_of, unscanned};

use crate::place::cut_at;

/// What a byte of a JSON text is.
#[derive(Clone, Copy, PartialEq, Eq)]
pub(crate) enum Mark {
    /// A blank, or a byte within a text.
    Within,
    /// The first byte of a text, or a byte of a number or a word.
    Plain,
    /// An object begins.
    Object,
    /// An array begins.
    Array,
    /// An object or an array ends.
    Close,
    Comma,
    Colon,
}

/// Where the next byte stands.
#[derive(Clone, Copy)]
pub(crate) enum Side {
    Outside,
    Text,
    /// In a text, behind a backslash.
    Escaped,
}

/// Where a text stands: the places of its first and its last quote.
#[derive(Clone, Copy)]
pub(crate) struct Span {
    pub quote: usize,
    pub until: usize,
}

/// What is known behind some bytes of a JSON text.
#[derive(Clone, Copy)]
pub(crate) struct Scan {
    pub side: Side,
    /// Where the text stands that ended last.
    pub last: Span,
}

impl Span {
    /// The bytes of the text.
    pub(crate) fn of(self, input: &[u8]) -> &[u8]
        ensures { result.now ≡ text_of input.now self }
    {
        let (front, _) = cut_at(input, self.until);
        let (_, text) = cut_at(front, self.quote.saturating_add(1));
        text
    }
}

impl Scan {
    pub(crate) fn new() -> Scan
        ensures { result ≡ unscanned }
    {
        Scan {
            side: Side::Outside,
            last: Span { quote: 0, until: 0 },
        }
    }

    /// What the next byte is, which stands at this place.
    pub(crate) fn mark(&mut self, place: usize, byte: u8) -> Mark
        ensures mark { result ≡ mark_of self.old.side byte }
        ensures scan { self.new ≡ scanned self.old place byte }
    {
        let mark = mark_at(self.side, byte);
        *self = Scan {
            side: side_at(self.side, byte),
            last: span_at(*self, place, byte),
        };
        mark
    }
}

pub(crate) fn mark_at(side: Side, byte: u8) -> Mark
    ensures { result ≡ mark_of side byte }
{
    match side {
        Side::Outside => outside_mark(byte),
        Side::Text | Side::Escaped => Mark::Within,
    }
}

pub(crate) fn outside_mark(byte: u8) -> Mark
    ensures { result ≡ mark_outside byte }
{
    match byte {
        b'{' => Mark::Object,
        b'[' => Mark::Array,
        b'}' | b']' => Mark::Close,
        b',' => Mark::Comma,
        b':' => Mark::Colon,
        b' ' | b'\t' | b'\n' | b'\r' => Mark::Within,
        _ => Mark::Plain,
    }
}

/// Where the byte behind this one stands.
pub(crate) fn side_at(side: Side, byte: u8) -> Side
    ensures { result ≡ side_behind side byte }
{
    match (side, byte) {
        (Side::Outside, b'"') | (Side::Escaped, _) => Side::Text,
        (Side::Outside, _) | (Side::Text, b'"') => Side::Outside,
        (Side::Text, b'\\') => Side::Escaped,
        (Side::Text, _) => Side::Text,
    }
}

/// The quotes of the last text, if this byte may be one of them.
fn span_at(scan: Scan, place: usize, byte: u8) -> Span
    ensures { result ≡ span_behind scan.side scan.last place byte }
{
    match (scan.side, byte) {
        (Side::Outside, b'"') => Span {
            quote: place,
            until: scan.last.until,
        },
        (Side::Text, b'"') => Span {
            quote: scan.last.quote,
            until: place,
        },
        _ => scan.last,
    }
}
