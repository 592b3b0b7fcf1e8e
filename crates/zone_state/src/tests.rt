use super::*;
use kube_objects::{RatePolicy, ZoneState};

#[test]
fn states_by_counts(rt: HostRuntime) {
    let table = [
        (1, 2, ZoneState::Normal),
        (9, 11, ZoneState::Partial),
        (9, 10, ZoneState::Normal),
        (22, 29, ZoneState::Partial),
        (0, 1, ZoneState::Full),
        (0, 0, ZoneState::Normal),
    ];
    for (ready, not_ready, state) in table {
        assert_eq!(rt; state_of(ready, not_ready, 55), state);
    }
}

#[test]
fn rates_by_state_and_policy(rt: HostRuntime) {
    let policies = Policies::new(partial, full);
    let table = [
        (ZoneState::Partial, false, RatePolicy::Standard, 20, 0),
        (ZoneState::Partial, false, RatePolicy::Standard, 50, 0),
        (ZoneState::Partial, false, RatePolicy::Standard, 51, 10),
        (ZoneState::Full, false, RatePolicy::Standard, 20, 100),
        (ZoneState::Full, true, RatePolicy::Standard, 20, 0),
        (ZoneState::Partial, false, RatePolicy::Gentle, 20, 10),
        (ZoneState::Full, false, RatePolicy::Gentle, 20, 10),
        (ZoneState::Partial, false, RatePolicy::Halt, 51, 0),
        (ZoneState::Full, false, RatePolicy::Halt, 20, 0),
        (ZoneState::Normal, false, RatePolicy::Halt, 20, 100),
        (ZoneState::Normal, true, RatePolicy::Gentle, 20, 0),
        (ZoneState::Partial, true, RatePolicy::Halt, 51, 0),
    ];
    for (state, all_full, policy, size, rate) in table {
        let view = ZoneView {
            primary: 100,
            secondary: 10,
            size,
            threshold: 50,
            policy,
        };
        assert_eq!(rt; policies.rate(state, all_full, view), rate);
    }
}
