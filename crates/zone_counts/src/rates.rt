// The states and rates of zones.
ghost use Rattle.std.specs.Prelude.{◌≡◌, ◌≤◌, ◌<◌, ℕ, Bool, List, length};
ghost use Rattle.kube_objects.specs.Document.{Doc};
ghost use Rattle.kube_objects.specs.Entry.{Place};
ghost use Rattle.kube_objects.specs.Modes as modes;
ghost use Rattle.kube_objects.specs.declared.node.Node.{Node};
ghost use Rattle.zone_counts.specs.Counted.{is_full, zone_count, zone_counts};
ghost use Rattle.zone_counts.specs.Settings.{AreSettings};

use crate::ZoneCount;
use kube_objects::{TickSettings, ZoneState};
use zone_state::{Policies, ZoneView, state_of};

impl ZoneCount {
    /// The state of the zone, if a zone counts as disrupted from so many of a hundred nodes on that aren't ready.
    pub fn state(&self, percent: u32) -> ZoneState
        ensures { (doc : Doc) (nodes : List Node) (place : Place) → self.now ≡ zone_count nodes place
            → percent ≡ doc.settings.unhealthy_percent → result ≡ modes.state_in doc nodes place }
    {
        state_of(self.ready, self.others, percent)
    }

    /// The rate at which the zone's nodes are tainted, in nodes per 1,000 s; `on` says whether every zone is disrupted.
    pub fn rate(&self, on: bool, settings: &TickSettings, policies: &Policies) -> u32
        requires ordered { settings.now.secondary_rate ≤ settings.now.primary_rate }
        ensures { (doc : Doc) (nodes : List Node) (place : Place) → self.now ≡ zone_count nodes place → AreSettings doc settings.now
            → length nodes < 4294967296 → result ≡ modes.rate_in doc on nodes place }
    {
        let view = ZoneView {
            primary: settings.primary_rate,
            secondary: settings.secondary_rate,
            size: self.ready.saturating_add(self.others),
            threshold: settings.large_zone,
            policy: settings.rate_policy,
        };
        policies.rate(self.state(settings.unhealthy_percent), on, view)
    }
}

// Whether no node of the zone is ready.
fn is_full(zone: &ZoneCount, percent: u32) -> bool
    ensures { result ≡ is_full zone.now percent }
{
    state_of(zone.ready, zone.others, percent) == ZoneState::Full
}

/// Whether there is a zone, and in every zone no node is ready.
pub fn all_full(zones: &[ZoneCount], percent: u32) -> bool
    ensures { (doc : Doc) (nodes : List Node) → zones.now ≡ zone_counts nodes → percent ≡ doc.settings.unhealthy_percent
        → result ≡ modes.all_full doc nodes }
{
    if zones.is_empty() {
        return false;
    }
    let mut rest = zones;
    while let Some((zone, others)) = rest.split_first() {
        if !is_full(zone, percent) {
            return false;
        }
        rest = others;
    }
    true
}
