// What is told of how long terms lasted.

/// Whether it is told for how long a term lasted.
#[derive(Clone, Copy)]
pub enum Lasting {
    Told,
    Untold,
}
