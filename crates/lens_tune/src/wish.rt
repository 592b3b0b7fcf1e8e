// What is wished for.

/// How long a call waits for its reply.
#[derive(Clone, Copy)]
pub enum Timeout {
    /// As long as the renew deadline, as in kube-controller-manager 1.20.
    RenewDeadline,
    /// Half as long, but at least a second, as when client-go's `NewFromKubeconfig` makes the client.
    Half,
    /// So many milliseconds.
    Fixed(u32),
}

/// What is wished for, and what can't be chosen.
#[derive(Clone, Copy)]
pub struct Wish {
    /// After a crash somebody else leads so soon.
    pub failover_millis: u32,
    pub timeout: Timeout,
    /// How far the rate of a clock may be off, in parts per million.
    pub skew_ppm: u32,
    /// How long a candidate waits at most between two attempts, in hundredths of its retry period.
    pub wait_percent: u32,
    /// How long a leader may stand still.
    pub stall_millis: u32,
    /// The greatest delay of a message, one way.
    pub delay_millis: u32,
    /// The least retry period that is taken, in tenths of a second.
    pub retry_tenths: u32,
    pub beat_millis: u32,
}
