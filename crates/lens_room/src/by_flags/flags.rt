// The settings that flags give.
ghost use Rattle.std.specs.Prelude.{◌≡◌, ◌≤◌};
ghost use Rattle.lens_room.specs.Flags as spec;

use crate::by_flags::flag::Flag;
use kube_objects::{ReleaseActing, ReleaseRule};

/// The settings of every controller, and how they are told. What no flag gives is as kube-controller-manager has it.
#[derive(Clone, Copy)]
pub struct Flags {
    pub lease_seconds: u32,
    pub renew_millis: u32,
    pub retry_millis: u32,
    /// The call timeout; if none is given, it is the renew deadline.
    pub timeout_millis: Option<u32>,
    /// How far a clock's rate may be off, in parts per million.
    pub skew_ppm: u32,
    pub beat_millis: u32,
    /// How a leader gives up its Lease.
    pub release: ReleaseRule,
    /// Whether a leader whose deadline has come acts until its release has ended.
    pub in_release: ReleaseActing,
    /// What they come to is told as one JSON object.
    pub as_json: bool,
}

impl Flags {
    /// Those that stand where no flag does.
    pub fn standard() -> Flags
        ensures { result ≡ spec.standard }
    {
        Flags {
            lease_seconds: 15,
            renew_millis: 10_000,
            retry_millis: 2000,
            timeout_millis: None,
            skew_ppm: 0,
            beat_millis: 100,
            release: ReleaseRule::Stop,
            in_release: ReleaseActing::Still,
            as_json: false,
        }
    }

    /// With the value of a flag in the place of what it was.
    pub fn with(self, flag: Flag, value: u32) -> Flags
        ensures { result ≡ spec.with_value flag value self }
    {
        match flag {
            Flag::Lease => Flags {
                lease_seconds: value,
                ..self
            },
            Flag::Renew => Flags {
                renew_millis: value,
                ..self
            },
            Flag::Retry => Flags {
                retry_millis: value,
                ..self
            },
            Flag::Timeout => Flags {
                timeout_millis: Some(value),
                ..self
            },
            Flag::Skew => Flags {
                skew_ppm: value,
                ..self
            },
            Flag::Beat => Flags {
                beat_millis: value,
                ..self
            },
        }
    }

    /// How long a call waits for its reply, in milliseconds.
    pub fn timeout(&self) -> u32
        ensures { result ≡ spec.timeout_of self.now }
    {
        match self.timeout_millis {
            Some(millis) => millis,
            None => self.renew_millis,
        }
    }
}
