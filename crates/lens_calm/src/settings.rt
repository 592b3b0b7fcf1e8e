// The settings that words give.
ghost use Rattle.std.specs.Prelude.{◌≡◌, ◌*◌, ◌≤◌};
ghost use Rattle.lens_bounds.specs.Elections.{IsCalm};
ghost use Rattle.lens_bounds.specs.Outages.{IsOutage};
ghost use Rattle.lens_calm.specs.Settings as spec;
ghost use Rattle.lens_calm.specs.Settings.{AreGiven};
ghost use Rattle.lens_calm.specs.Words as words;

use crate::setting::Setting;
use kube_objects::RespectRule;
use lens_bounds::{Calm, Outage, Waits};
use lens_room::by_flags::Flags;

/// The settings of every controller, of the network and of nodes, and how they are told. What no word gives is as kube-controller-manager
/// and the kubelet have it.
#[derive(Clone, Copy)]
pub struct Settings {
    /// Those of `margin`.
    pub flags: Flags,
    /// The longest wait of a candidate between two attempts; if none is given, it is the retry period.
    pub wait_millis: Option<u32>,
    /// The greatest delay of a message, one way.
    pub delay_millis: u32,
    /// And the least; if none is given, it is a beat.
    pub least_delay_millis: Option<u32>,
    pub grace_millis: u32,
    pub monitor_millis: u32,
    pub node_lease_seconds: u32,
    /// How many nodes of a zone are tainted in 1,000 s.
    pub rate: u32,
    /// How many nodes of the zone wait before the one that is told of.
    pub ahead: u32,
    /// For how many seconds its pods tolerate the taint.
    pub toleration_seconds: u32,
}

impl Settings {
    /// Those that stand where no word does.
    pub(crate) fn usual() -> Settings
        ensures { result ≡ spec.usual }
    {
        Settings {
            flags: Flags {
                beat_millis: 10,
                ..Flags::standard()
            },
            wait_millis: None,
            delay_millis: 100,
            least_delay_millis: None,
            grace_millis: 40_000,
            monitor_millis: 5000,
            node_lease_seconds: 40,
            rate: 100,
            ahead: 0,
            toleration_seconds: 300,
        }
    }

    /// With this number in the place of what it was.
    pub(crate) fn with(self, setting: Setting, number: u32) -> Settings
        ensures { result ≡ spec.with_number setting number self }
    {
        let mut s = self;
        match setting {
            Setting::Election(flag) => s.flags = s.flags.with(flag, number),
            Setting::Wait => s.wait_millis = Some(number),
            Setting::Delay => s.delay_millis = number,
            Setting::LeastDelay => s.least_delay_millis = Some(number),
            Setting::Grace => s.grace_millis = number,
            Setting::Monitor => s.monitor_millis = number,
            Setting::NodeLease => s.node_lease_seconds = number,
            Setting::Rate => s.rate = number,
            Setting::Ahead => s.ahead = number,
            Setting::Toleration => s.toleration_seconds = number,
        }
        s
    }

    /// Told as one JSON object.
    pub(crate) fn as_json(self) -> Settings
        ensures { result ≡ words.as_json self }
    {
        Settings {
            flags: Flags {
                as_json: true,
                ..self.flags
            },
            ..self
        }
    }

    fn near(self) -> u32
        requires { AreGiven self }
        ensures is { result ≡ spec.near_of self }
        ensures some { 1 ≤ result }
    {
        match self.least_delay_millis {
            None => 1,
            Some(millis) => (millis / self.flags.beat_millis).max(1),
        }
    }

    fn far(self) -> u32
        requires { AreGiven self }
        ensures is { result ≡ spec.far_of self }
        ensures some { 1 ≤ result }
    {
        self.delay_millis.div_ceil(self.flags.beat_millis)
    }

    /// The least delay, in whole beats.
    pub(crate) fn near_millis(self) -> u64
        requires { AreGiven self }
        ensures { result ≡ spec.near_of self * self.flags.beat_millis }
    {
        u64::from(self.near()) * u64::from(self.flags.beat_millis)
    }

    /// And the greatest.
    pub(crate) fn far_millis(self) -> u64
        requires { AreGiven self }
        ensures { result ≡ spec.far_of self * self.flags.beat_millis }
    {
        u64::from(self.far()) * u64::from(self.flags.beat_millis)
    }

    /// The longest wait of a candidate between two attempts.
    pub(crate) fn longest_wait(self) -> u32
        ensures { result ≡ spec.longest_wait self }
    {
        self.wait_millis.unwrap_or(self.flags.retry_millis)
    }

    /// The calm spans of these settings.
    pub fn calm(self) -> Calm
        requires { AreGiven self }
        ensures is { result ≡ spec.calm_of self }
        ensures calm { IsCalm result }
    {
        let micros = u64::from(self.flags.beat_millis) * 1000;
        Calm {
            beat_millis: self.flags.beat_millis,
            near: self.near(),
            far: self.far(),
            slow: micros * u64::from(1_000_000 - self.flags.skew_ppm),
            fast: micros * u64::from(1_000_000 + self.flags.skew_ppm),
            waits: Waits::UpTo(self.longest_wait()),
            respect: RespectRule::Record,
            fast_renew: false,
            releases_by_stop: true,
        }
    }

    /// What the end of a node depends on.
    pub fn outage(self) -> Outage
        requires { AreGiven self }
        ensures is { result ≡ spec.outage_of self }
        ensures outage { IsOutage result }
    {
        let calm = self.calm();
        Outage {
            calm,
            kubelets: true,
            passes_take_no_work: true,
            probes_by_run: true,
            judges_by_own: true,
            starts_empty: true,
            evicts_by_own: true,
            posts_slow: calm.slow,
            posts_fast: calm.fast,
            timeout_millis: self.flags.timeout(),
            monitor_millis: self.monitor_millis,
            grace_millis: self.grace_millis,
            node_lease_seconds: self.node_lease_seconds,
            rate: self.rate,
            ahead: self.ahead,
        }
    }
}
