// What words want.
ghost use Rattle.std.specs.Prelude.{◌≡◌};
ghost use Rattle.lens_tune.specs.Wishes.{IsWish};
ghost use Rattle.lens_plan.specs.Wanted as spec;

use crate::setting::Setting;
use lens_tune::{Timeout, Wish};

/// What words want, and how it is told.
#[derive(Clone, Copy)]
pub struct Wanted {
    pub wish: Wish,
    /// The answer is one JSON object.
    pub as_json: bool,
}

impl Wanted {
    /// What stands where no word says else, but for the failover.
    pub(crate) fn usual() -> Wanted
        ensures { result ≡ spec.usual }
    {
        Wanted {
            wish: Wish {
                failover_millis: 0,
                timeout: Timeout::RenewDeadline,
                skew_ppm: 0,
                wait_percent: 220,
                stall_millis: 0,
                delay_millis: 100,
                retry_tenths: 1,
                beat_millis: 10,
            },
            as_json: false,
        }
    }

    /// With this number in the place of what it was.
    pub(crate) fn with(self, setting: Setting, number: u32) -> Wanted
        requires wish { IsWish self.wish }
        requires fit { spec.IsFit setting number }
        ensures is { result ≡ spec.with_number setting number self }
        ensures wish { IsWish result.wish }
    {
        Wanted {
            wish: wish_with(self.wish, setting, number),
            as_json: self.as_json,
        }
    }

    /// With a call timeout of half the renew deadline.
    pub(crate) fn with_half(self) -> Wanted
        requires wish { IsWish self.wish }
        ensures is { result ≡ spec.with_half self }
        ensures wish { IsWish result.wish }
    {
        Wanted {
            wish: Wish {
                timeout: Timeout::Half,
                ..self.wish
            },
            as_json: self.as_json,
        }
    }
}

fn wish_with(wish: Wish, setting: Setting, number: u32) -> Wish
    requires wish { IsWish wish }
    requires fit { spec.IsFit setting number }
    ensures is { result ≡ spec.wish_with setting number wish }
    ensures wish { IsWish result }
{
    match setting {
        Setting::Failover => Wish {
            failover_millis: number,
            ..wish
        },
        Setting::Timeout => Wish {
            timeout: Timeout::Fixed(number),
            ..wish
        },
        Setting::Skew => Wish {
            skew_ppm: number,
            ..wish
        },
        Setting::WaitFactor => Wish {
            wait_percent: number,
            ..wish
        },
        Setting::Stall => Wish {
            stall_millis: number,
            ..wish
        },
        Setting::Delay => Wish {
            delay_millis: number,
            ..wish
        },
        Setting::LeastRetry => Wish {
            retry_tenths: number,
            ..wish
        },
        Setting::Beat => Wish {
            beat_millis: number,
            ..wish
        },
    }
}
