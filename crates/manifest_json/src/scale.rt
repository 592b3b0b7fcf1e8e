// How large a cluster may be.

/// As large as documents up to version 3 say them, and lists alone, or as those of version 4.
#[derive(Clone, Copy, Debug)]
pub enum Scale {
    Usual,
    Large,
}
