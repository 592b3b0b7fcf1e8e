// A taint line.

/// A taint line of a term.
#[derive(Clone, Copy)]
pub struct Mark {
    pub beat: u32,
    pub line: u64,
}
