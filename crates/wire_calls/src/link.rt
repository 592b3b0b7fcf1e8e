// Delays and losses of one process.
ghost use Rattle.std.specs.Prelude.{◌≡◌, ◌≤◌, false};
ghost use Rattle.kube_objects.specs.Wire.{arrival};
ghost use Rattle.wire_calls.specs.Messages.{sent_as_told};

use crate::Fate;
use kube_base::Beat;

/// How messages of one process travel, each way. Delays are in beats.
#[derive(Clone, Copy, Debug)]
pub(crate) struct Link {
    pub(crate) request_delay: u32,
    pub(crate) reply_delay: u32,
    pub(crate) loses_requests: bool,
    pub(crate) loses_replies: bool,
}

impl Link {
    /// At first delays are one beat, and nothing is lost.
    pub(crate) fn first() -> Link
        ensures { result ≡ record { request_delay = 1; reply_delay = 1; loses_requests = false; loses_replies = false } }
    {
        Link {
            request_delay: 1,
            reply_delay: 1,
            loses_requests: false,
            loses_replies: false,
        }
    }
}

/// What becomes of a message that is sent now. The delay is in beats.
pub(crate) fn travel(lost: bool, now: Beat, delay: u32) -> Fate
    requires { now.0 ≤ 700000000 }
    ensures { delay ≤ 6000 → result ≡ sent_as_told (arrival lost now.0 delay) }
{
    if lost {
        return Fate::Lost;
    }
    // With a delay of at most 6,000 beats the sum is below the greatest number.
    Fate::InFlight(Beat(now.0.saturating_add(delay)))
}
