// What is the same for all in a calm span.
use kube_objects::RespectRule;

/// How long a candidate waits between two attempts.
#[derive(Clone, Copy)]
pub enum Waits {
    /// From its retry period up to so many milliseconds.
    UpTo(u32),
    /// From so many thousandths of its retry period up to so many.
    Between(u32, u32),
}

/// What messages and clocks may do in a calm span.
#[derive(Clone, Copy)]
pub struct Calm {
    /// The length of a beat.
    pub beat_millis: u32,
    /// The least delay of a message, one way, in beats.
    pub near: u32,
    /// And the greatest.
    pub far: u32,
    /// How far the slowest clock goes in a beat, in units of 10^-12 s.
    pub slow: u64,
    /// And the fastest.
    pub fast: u64,
    /// How long a candidate waits between two attempts.
    pub waits: Waits,
    /// Whose lease duration a candidate respects.
    pub respect: RespectRule,
    /// Whether a leader renews without a Get if it can.
    pub fast_renew: bool,
    /// Whether leaders give up their Leases at stops alone, each by one update, and nobody acts meanwhile.
    pub releases_by_stop: bool,
}
