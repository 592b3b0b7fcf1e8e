// Words that can't be read.

/// Which word behind a command can't be read, of which places count from 0.
#[derive(Clone, Copy)]
pub enum Misread<F> {
    /// The word at this place names no flag.
    Unknown(usize),
    /// The last word is this flag, and no value stands behind it.
    Alone(F),
    /// This flag doesn't take what the word at this place says.
    Value(F, usize),
}
