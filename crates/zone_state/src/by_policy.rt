// The rates of zones in which nodes are disrupted, as a document's rate policy has them.
ghost use Rattle.std.specs.Prelude.{◌≡◌};
ghost use Rattle.zone_state.specs.Views.{full_of, partial_of};

use crate::ZoneView;
use kube_objects::RatePolicy;

/// The rate of a zone in which many nodes aren't ready.
pub fn partial(view: ZoneView) -> u32
    ensures { result ≡ partial_of view }
{
    match view.policy {
        RatePolicy::Standard if view.size > view.threshold => view.secondary,
        RatePolicy::Gentle => view.secondary,
        _ => 0,
    }
}

/// The rate of a zone in which no node is ready.
pub fn full(view: ZoneView) -> u32
    ensures { result ≡ full_of view }
{
    match view.policy {
        RatePolicy::Standard => view.primary,
        RatePolicy::Gentle => view.secondary,
        RatePolicy::Halt => 0,
    }
}
