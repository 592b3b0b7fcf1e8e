// The way to a value of a JSON text, by the keys and places of its path.
ghost use Rattle.std.specs.Prelude.{◌≡◌, ◌≤◌, [], Some, IfOk, OnOk, length, option_copied};
ghost use Rattle.lens_explain.specs.Marks.{mark_of, scanned, text_of, unscanned};
ghost use Rattle.lens_explain.specs.Ways as spec;
ghost use Rattle.lens_explain.specs.Ways.{found_behind, led, next_behind, outer_behind, reach, unfound};

use crate::digits::digits_of;
use crate::scan::{Mark, Scan};
use kube_base::NoMemory;
use std::alloc::Global;
use trace_writer::add_number;

/// How far a path leads.
#[derive(Clone, Copy)]
pub(crate) struct Found {
    /// Where the last value on the path begins.
    pub place: usize,
    /// How many bytes of the path lead to it.
    pub reached: usize,
}

/// An object or array that is open.
#[derive(Clone, Copy)]
pub(crate) struct Outer {
    /// How many bytes of the path lead to it, if it is on the path.
    pub reached: Option<usize>,
    /// In an array the number of the present item.
    pub item: Option<u64>,
}

/// What is known behind some bytes of a text.
#[derive(Drop)]
pub(crate) struct Walk {
    pub alloc: Global,
    pub scan: Scan,
    /// What is open, the innermost last.
    pub outer: Vec<Outer>,
    /// How many bytes of the path lead to the value that comes next, if it is on the path.
    pub next: Option<usize>,
    pub found: Found,
}

/// Goes along a path, to the last value that is on it. So of a key that is there twice the last one counts.
pub(crate) fn follow(alloc: Global, input: &[u8], path: &[u8]) -> Result<Found, NoMemory>
    ensures { IfOk result (λ found. found ≡ led path.now input.now) }
{
    let way = way_of(path);
    let mut walk = Walk::new(alloc);
    for (place, byte) in input.iter().enumerate() {
        walk.take(input, way, place, *byte)?;
    }
    Ok(walk.found)
}

/// The steps of a path: that of the whole input is a slash alone.
fn way_of(path: &[u8]) -> &[u8]
    ensures { result.now ≡ spec.way_of path.now }
{
    if path.len() == 1 { b"" } else { path }
}

/// What stands at the end of a path, from its first byte to the input's end.
pub(crate) fn value_at<'t>(
    alloc: Global,
    input: &'t [u8],
    path: &[u8],
) -> Result<Option<&'t [u8]>, NoMemory> {
    let found = follow(alloc, input, path)?;
    if found.is_whole(path) {
        Ok(input.get(found.place..))
    } else {
        Ok(None)
    }
}

/// The number at the end of a path.
pub(crate) fn number_at(alloc: Global, input: &[u8], path: &[u8]) -> Result<Option<u64>, NoMemory> {
    match value_at(alloc, input, path)? {
        Some(value) => Ok(digits_of(value)),
        None => Ok(None),
    }
}

/// The last key or place of a path.
pub(crate) fn last_step(path: &[u8]) -> &[u8] {
    match path.split(|byte| *byte == b'/').last() {
        Some(step) => step,
        None => b"",
    }
}

/// How many bytes of a path lead a step further, if so many lead up to it and the step is the next one.
fn step_from(path: &[u8], step: &[u8], reached: usize) -> Option<usize>
    ensures { result ≡ spec.step_from path.now step.now reached }
{
    let (_, rest) = path.split_at(reached.min(path.len()));
    let behind = rest.strip_prefix(b"/")?;
    let more = behind.strip_prefix(step)?;
    if ends_step(more) {
        Some(path.len() - more.len())
    } else {
        None
    }
}

/// Whether a step ends here: the path does, or a slash comes.
fn ends_step(rest: &[u8]) -> bool
    ensures { result ≡ spec.ends_step rest.now }
{
    match rest {
        [] => true,
        [byte, ..] => *byte == b'/',
    }
}

impl Found {
    /// Whether it is the value at the path's end.
    pub(crate) fn is_whole(self, path: &[u8]) -> bool {
        self.reached >= path.len() || path.len() < 2
    }
}

impl Outer {
    fn next_item(self) -> Outer
        ensures { result ≡ spec.next_item self }
    {
        Outer {
            reached: self.reached,
            item: match self.item {
                Some(item) => Some(item.saturating_add(1)),
                None => None,
            },
        }
    }
}

impl Walk {
    fn new(alloc: Global) -> Walk
        ensures scan { result.scan ≡ unscanned }
        ensures outer { result.outer.items ≡ [] }
        ensures next { result.next ≡ Some 0 }
        ensures found { result.found ≡ unfound }
    {
        Walk {
            alloc,
            scan: Scan::new(),
            outer: Vec::new(alloc),
            next: Some(0),
            found: Found {
                place: 0,
                reached: 0,
            },
        }
    }

    /// Goes over a byte at its place.
    fn take(&mut self, input: &[u8], path: &[u8], place: usize, byte: u8) -> Result<(), NoMemory>
        ensures scan { OnOk result (self.new.scan ≡ scanned self.old.scan place byte) }
        ensures outer { OnOk result (self.new.outer.items ≡ outer_behind (mark_of self.old.scan.side byte) self.old.next self.old.outer.items) }
        ensures next { OnOk result (self.new.next ≡ next_behind path.now (mark_of self.old.scan.side byte) (text_of input.now self.old.scan.last)
            self.old.next self.new.outer.items) }
        ensures found { OnOk result (self.new.found ≡ found_behind (mark_of self.old.scan.side byte) place self.old.next self.old.found) }
    {
        let text = self.scan.last.of(input);
        let mark = self.scan.mark(place, byte);
        self.reach(mark, place);
        self.open(mark)?;
        self.next = self.next_at(path, mark, text)?;
        Ok(())
    }

    /// Keeps the value that begins here, if it is on the path.
    fn reach(&mut self, mark: Mark, place: usize)
        ensures found { self.new.found ≡ found_behind mark place self.old.next self.old.found }
        ensures scan { self.new.scan ≡ self.old.scan }
        ensures outer { self.new.outer ≡ self.old.outer }
        ensures next { self.new.next ≡ self.old.next }
    {
        match mark {
            Mark::Plain | Mark::Object | Mark::Array => {
                if let Some(reached) = self.next {
                    self.found = Found { place, reached };
                }
            }
            Mark::Within | Mark::Close | Mark::Comma | Mark::Colon => {}
        }
    }

    /// Keeps what is open behind a mark.
    fn open(&mut self, mark: Mark) -> Result<(), NoMemory>
        ensures outer { OnOk result (self.new.outer.items ≡ outer_behind mark self.old.next self.old.outer.items) }
        ensures scan { self.new.scan ≡ self.old.scan }
        ensures found { self.new.found ≡ self.old.found }
        ensures next { self.new.next ≡ self.old.next }
    {
        match mark {
            Mark::Object => {
                self.outer.push(Outer {
                    reached: self.next,
                    item: None,
                })?;
            }
            Mark::Array => {
                self.outer.push(Outer {
                    reached: self.next,
                    item: Some(0),
                })?;
            }
            Mark::Close => {
                self.outer.pop();
            }
            Mark::Comma => {
                if let Some(inner) = self.outer.pop() {
                    self.outer.push(inner.next_item())?;
                }
            }
            Mark::Within | Mark::Plain | Mark::Colon => {}
        }
        Ok(())
    }

    /// How many bytes of the path lead to the value that comes next. The text is the one that ended last.
    fn next_at(&self, path: &[u8], mark: Mark, text: &[u8]) -> Result<Option<usize>, NoMemory>
        ensures { IfOk result (λ next. next ≡ next_behind path.now mark text.now self.now.next self.now.outer.items) }
    {
        match mark {
            Mark::Within => Ok(self.next),
            Mark::Plain | Mark::Object | Mark::Close => Ok(None),
            Mark::Array | Mark::Comma => item_in(self.alloc, path, self.outer.last()),
            Mark::Colon => Ok(key_in(path, text, self.outer.last())),
        }
    }
}

/// How many bytes of a path lead to the present item of an array.
fn item_in(alloc: Global, path: &[u8], inner: Option<&Outer>) -> Result<Option<usize>, NoMemory>
    ensures { IfOk result (λ next. next ≡ spec.item_in path.now (option_copied inner.entry)) }
{
    match inner {
        Some(inner) => item_on(alloc, path, inner.reached, inner.item),
        None => Ok(None),
    }
}

fn item_on(
    alloc: Global,
    path: &[u8],
    reached: Option<usize>,
    item: Option<u64>,
) -> Result<Option<usize>, NoMemory>
    ensures { IfOk result (λ next. next ≡ spec.item_on path.now reached item) }
{
    let (Some(reached), Some(item)) = (reached, item) else {
        return Ok(None);
    };
    let mut step = Vec::new(alloc);
    add_number(&mut step, item)?;
    Ok(step_from(path, &step, reached))
}

/// How many bytes of a path lead to the value of a key.
fn key_in(path: &[u8], text: &[u8], inner: Option<&Outer>) -> Option<usize>
    ensures { result ≡ spec.key_in path.now text.now (option_copied inner.entry) }
{
    match inner {
        Some(inner) => match inner.reached {
            Some(reached) => step_from(path, text, reached),
            None => None,
        },
        None => None,
    }
}
