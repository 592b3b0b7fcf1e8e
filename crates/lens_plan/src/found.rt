// What is found for a wish.
ghost use Rattle.std.specs.Prelude.{◌≡◌};
ghost use Rattle.lens_tune.specs.Searches.{IsSmall};
ghost use Rattle.lens_tune.specs.Wishes.{IsWish};
ghost use Rattle.lens_plan.specs.Found as spec;

use lens_tune::{Plan, Timeout, Wish, bound, greatest_plan, least_failover};

/// What is found for a wish.
#[derive(Clone, Copy)]
pub enum Found {
    /// The greatest plan that fits.
    Fitting(Plan),
    /// None fits, and this is the least failover in milliseconds for which one would.
    Later(u128),
    /// None fits whatever the failover.
    Never,
}

/// What is found for a wish. Takes no memory.
pub(crate) fn found_for(wish: Wish) -> Found
    requires { IsWish wish }
    ensures { spec.IsFound wish result }
{
    match greatest_plan(wish) {
        Some(plan) => Found::Fitting(plan),
        None => later_for(wish),
    }
}

fn later_for(wish: Wish) -> Found
    requires { IsWish wish }
    ensures { spec.IsLater wish result }
{
    match least_failover(wish) {
        Some(least) => Found::Later(least),
        None => Found::Never,
    }
}

/// What the bound of a crash leaves of the failover, in milliseconds.
pub(crate) fn spare(wish: Wish, plan: Plan) -> u128
    requires wish { IsWish wish }
    requires plan { IsSmall plan }
    ensures { result ≡ spec.spare wish plan }
{
    u128::from(wish.failover_millis).saturating_sub(bound(wish, plan))
}

/// The milliseconds of two ways of a message, as the fastest clock counts them, rounded up.
pub(crate) fn two_ways(wish: Wish) -> u64
    requires { IsWish wish }
    ensures { result ≡ spec.two_ways wish }
{
    let far = u64::from(wish.delay_millis.div_ceil(wish.beat_millis));
    let millis = 2 * far * u64::from(wish.beat_millis);
    (millis * u64::from(1_000_000 + wish.skew_ppm)).div_ceil(1_000_000)
}

/// The call timeout, if it is given in milliseconds, that is shorter than two ways of a message.
pub(crate) fn short_timeout(wish: Wish) -> Option<u32>
    requires { IsWish wish }
    ensures { result ≡ spec.short_timeout wish }
{
    match wish.timeout {
        Timeout::Fixed(millis) => if u64::from(millis) < two_ways(wish) {
            Some(millis)
        } else {
            None
        },
        Timeout::RenewDeadline | Timeout::Half => None,
    }
}
