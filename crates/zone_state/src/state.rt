// The disruption state of a zone.
ghost use Rattle.std.specs.Prelude.{◌≡◌};
ghost use Rattle.kube_objects.specs.Zones.{state_of};

use kube_objects::ZoneState;

/// The state of a zone of so many ready and so many other nodes: Full if none is ready and at least one isn't, else
/// Partial if more than two aren't ready and they are at least `percent` of a hundred of all, else Normal.
pub fn state_of(ready: u32, not_ready: u32, percent: u32) -> ZoneState
    ensures { result ≡ state_of ready not_ready percent }
{
    if ready == 0 && not_ready > 0 {
        return ZoneState::Full;
    }
    let (ready, not_ready) = (u128::from(ready), u128::from(not_ready));
    let disrupted = 100 * not_ready >= u128::from(percent) * (ready + not_ready);
    if not_ready > 2 && disrupted {
        return ZoneState::Partial;
    }
    ZoneState::Normal
}
