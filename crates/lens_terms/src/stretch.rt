// A stretch of beats in which a leader acts.

/// A stretch of beats in which a leader acts: the line that begins it, a `lead` or a pause that is over then; who acts, from which beat on, and
/// before which it acts no more. The text of a name is a `T`.
#[derive(Drop)]
pub struct Stretch<T> {
    pub line: u64,
    pub actor: T,
    pub from: u32,
    pub until: u32,
}
