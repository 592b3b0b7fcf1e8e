// A call slot's calls, by a table.
use crate::CallSlot;
use kube_base::Local;

#[test]
fn holds_one_call(rt: HostRuntime) {
    let mut slot = CallSlot::new();
    assert!(rt; slot.is_idle());
    assert_eq!(rt; slot.begin(Local(100)), 1);
    assert!(rt; !slot.is_idle());
    for (number, now, accepts) in [
        (1, 100, true),
        (1, 150, true),
        (1, 151, false),
        (0, 120, false),
        (2, 120, false),
    ] {
        assert_eq!(rt;
            slot.accepts(number, Local(now), 50),
            accepts,
            "{number} at {now}"
        );
    }
    assert!(rt; !slot.expired(Local(150), 50));
    assert!(rt; slot.expired(Local(151), 50));
    slot.finish();
    assert!(rt; slot.is_idle());
    assert!(rt; !slot.accepts(1, Local(120), 50));
    assert!(rt; !slot.expired(Local(200), 50));
    assert_eq!(rt; slot.begin_unheld(), 2);
    assert!(rt; slot.is_idle());
}
