// A trace that was read.
use trace_lines::{Header, Line};

/// A trace: its first line, and the lines behind it.
#[derive(Clone, Copy)]
pub struct Trace<'a> {
    pub header: Header,
    pub lines: &'a [Line<&'a [u8]>],
}
