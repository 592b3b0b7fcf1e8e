// The scripts. Each is a scene of the model's worked traces, whose lines are in `stdout`.
use crate::change::{Added, Change};
use kube_base::{NOT_READY, UNREACHABLE};
use kube_objects::{RatePolicy, ReadyStatus};

/// Nodes, zones and pods.
pub(crate) const N1: u32 = 10;

pub(crate) const N2: u32 = 11;

pub(crate) const N3: u32 = 12;

pub(crate) const M1: u32 = 13;

pub(crate) const P1: u32 = 20;

pub(crate) const P2: u32 = 21;

pub(crate) const P3: u32 = 22;

pub(crate) const DAEMON_1: u32 = 23;

pub(crate) const DAEMON_2: u32 = 24;

pub(crate) const DAEMON_3: u32 = 25;

pub(crate) const A: u32 = 32;

pub(crate) const B: u32 = 33;

/// The first and the last beat of a term.
#[derive(Clone, Copy, Debug, PartialEq, Eq)]
pub(crate) struct Span {
    pub(crate) from: u16,
    pub(crate) to: u16,
}

/// How long a beat is.
#[derive(Clone, Copy, Debug, PartialEq, Eq)]
pub(crate) enum Pace {
    /// A tenth of a second.
    Tenth,
    /// A second.
    Second,
}

/// The Leases of some nodes are renewed each tenth beat from the first one to the last one, in the order of the nodes.
#[derive(Clone, Copy, Debug, PartialEq, Eq)]
pub(crate) struct Renewals {
    pub(crate) nodes: &'static [u32],
    pub(crate) from: u16,
    pub(crate) to: u16,
}

/// A scene: its terms, what is stored at first, when the leader renews its Lease, what else changes before the tick of which beat,
/// and of some ticks how many steps they count at most.
#[derive(Clone, Copy, Debug)]
pub(crate) struct Row {
    pub(crate) name: &'static str,
    pub(crate) pace: Pace,
    pub(crate) grace_millis: u32,
    pub(crate) policy: RatePolicy,
    pub(crate) terms: &'static [Span],
    pub(crate) renewals: &'static [Renewals],
    pub(crate) at_first: &'static [Change],
    pub(crate) lease_beats: &'static [u16],
    pub(crate) changes: &'static [(u16, Change)],
    pub(crate) steps: &'static [(u16, u64)],
}

const NOT_READY_AT_EPOCH: Option<Added> = Some(Added {
    key: NOT_READY,
    at: 0,
});

/// How long pods tolerate each condition taint.
const NOT_READY_300: Option<(u32, i64)> = Some((NOT_READY, 300));

const UNREACHABLE_300: Option<(u32, i64)> = Some((UNREACHABLE, 300));

const TRUE: ReadyStatus = ReadyStatus::True;

const FALSE: ReadyStatus = ReadyStatus::False;

/// What most scenes have alike.
const COMMON: Row = Row {
    name: "",
    pace: Pace::Tenth,
    grace_millis: 40_000,
    policy: RatePolicy::Standard,
    terms: &[],
    renewals: &[],
    at_first: &[],
    lease_beats: &[3, 7],
    changes: &[],
    steps: &[],
};

/// A node with a taint, a node that is ready, and on the first one a pod that tolerates the taint for 10 s.
const A_POD_THAT_IS_DUE: &[Change] = &[
    Change::Node(N1, A, FALSE, NOT_READY_AT_EPOCH),
    Change::Node(N2, A, TRUE, None),
    Change::Pod(P1, N1, Some((NOT_READY, 10)), None),
];

pub(crate) const ROWS: [Row; 10] = [
    Row {
        name: "a kubelet that crashes",
        terms: &[Span { from: 4, to: 504 }],
        at_first: &[Change::BareNode(N1)],
        changes: &[
            (1, Change::Status(N1, TRUE, 0)),
            (5, Change::NodeLease(N1, 400)),
        ],
        ..COMMON
    },
    Row {
        name: "every zone disrupted, and no more",
        terms: &[Span { from: 4, to: 154 }],
        at_first: &[
            Change::Node(N1, A, FALSE, NOT_READY_AT_EPOCH),
            Change::Node(N2, A, FALSE, None),
            Change::Pod(P1, N1, None, None),
            Change::Pod(P2, N2, None, None),
        ],
        changes: &[(40, Change::Node(N1, A, TRUE, None))],
        ..COMMON
    },
    Row {
        name: "one zone with two that aren't ready",
        terms: &[Span { from: 4, to: 109 }, Span { from: 270, to: 370 }],
        at_first: &[
            Change::Node(N1, A, FALSE, None),
            Change::Node(N2, A, FALSE, None),
            Change::Node(N3, A, TRUE, None),
        ],
        lease_beats: &[3, 7, 31, 55, 79, 103, 269, 273, 297, 321, 345, 369],
        ..COMMON
    },
    Row {
        name: "a swap, and the due that counts anew",
        terms: &[Span { from: 4, to: 200 }],
        at_first: &[
            Change::Node(
                N1,
                A,
                FALSE,
                Some(Added {
                    key: UNREACHABLE,
                    at: -60,
                }),
            ),
            Change::Node(N2, A, TRUE, None),
            Change::Pod(P1, N1, Some((UNREACHABLE, 300)), Some((NOT_READY, 20))),
        ],
        ..COMMON
    },
    Row {
        name: "a delete by an old version of the node",
        terms: &[Span { from: 4, to: 130 }],
        at_first: A_POD_THAT_IS_DUE,
        changes: &[
            (50, Change::Watch(false)),
            (60, Change::Node(N1, A, TRUE, None)),
            (120, Change::Watch(true)),
        ],
        ..COMMON
    },
    Row {
        name: "a delete that is due when the watch is on again",
        terms: &[Span { from: 4, to: 130 }],
        at_first: A_POD_THAT_IS_DUE,
        changes: &[
            (50, Change::Watch(false)),
            (60, Change::Node(N1, A, FALSE, NOT_READY_AT_EPOCH)),
            (120, Change::Watch(true)),
        ],
        ..COMMON
    },
    Row {
        name: "deletes that are lost",
        terms: &[Span { from: 4, to: 121 }],
        at_first: A_POD_THAT_IS_DUE,
        changes: &[(90, Change::Passes(false)), (120, Change::Passes(true))],
        ..COMMON
    },
    Row {
        name: "a gentle policy",
        grace_millis: 600_000,
        policy: RatePolicy::Gentle,
        terms: &[Span { from: 4, to: 1004 }],
        at_first: &[
            Change::Node(N1, A, FALSE, None),
            Change::Node(M1, B, TRUE, None),
        ],
        ..COMMON
    },
    Row {
        name: "a tick after a sync, and one with nothing new",
        terms: &[Span { from: 4, to: 5 }],
        at_first: &[
            Change::Node(N1, A, TRUE, None),
            Change::Pod(P1, N1, None, None),
            Change::Pod(P2, N1, None, None),
            Change::Pod(P3, N1, None, None),
        ],
        lease_beats: &[],
        steps: &[(4, 17), (5, 1)],
        ..COMMON
    },
    Row {
        name: "a dead node and a failover",
        pace: Pace::Second,
        terms: &[Span { from: 4, to: 99 }, Span { from: 226, to: 364 }],
        renewals: &[
            Renewals {
                nodes: &[N1, N2, N3],
                from: 5,
                to: 15,
            },
            Renewals {
                nodes: &[N1, N2],
                from: 25,
                to: 364,
            },
        ],
        at_first: &[
            Change::Node(N1, A, TRUE, None),
            Change::Node(N2, A, TRUE, None),
            Change::Node(N3, A, TRUE, None),
            Change::NodeLease(N1, -5_000),
            Change::NodeLease(N2, -5_000),
            Change::NodeLease(N3, -5_000),
            Change::Pod(P1, N1, NOT_READY_300, UNREACHABLE_300),
            Change::Daemon(DAEMON_1, N1),
            Change::Pod(P2, N2, NOT_READY_300, UNREACHABLE_300),
            Change::Daemon(DAEMON_2, N2),
            Change::Pod(P3, N3, NOT_READY_300, UNREACHABLE_300),
            Change::Daemon(DAEMON_3, N3),
        ],
        lease_beats: &[3, 7, 31, 55, 79, 225, 229, 253, 277, 301, 325, 349],
        changes: &[
            (181, Change::Node(N1, A, TRUE, None)),
            (181, Change::Node(N2, A, TRUE, None)),
        ],
        ..COMMON
    },
];
