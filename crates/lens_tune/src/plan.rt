// The settings of an election that can be chosen.

/// The settings of an election that can be chosen, in whole steps: the lease in seconds, as the Lease object has it, and the other two in
/// tenths of a second.
#[derive(Clone, Copy)]
pub struct Plan {
    pub lease_seconds: u32,
    pub renew_tenths: u32,
    pub retry_tenths: u32,
}
