// The settings of a tick.
ghost use Rattle.std.specs.Prelude.{◌≡◌};
ghost use Rattle.kube_objects.specs.Document.{Doc};
ghost use Rattle.zone_counts.specs.Settings.{AreSettings};

use kube_objects::{Settings, TickSettings};

/// Those of a document's settings that a tick reads.
pub(crate) fn tick_settings(settings: &Settings) -> TickSettings
    ensures stands { (doc : Doc) → doc.settings ≡ settings.now → AreSettings doc result }
    ensures primary { result.primary_rate ≡ settings.now.primary_rate }
    ensures secondary { result.secondary_rate ≡ settings.now.secondary_rate }
{
    TickSettings {
        first_sync_millis: settings.rules.first_sync_millis,
        probe: settings.rules.probe,
        monitor_period_millis: settings.monitor_period_millis,
        grace_period_millis: settings.grace_period_millis,
        startup_grace_millis: settings.startup_grace_millis,
        node_lease_duration_seconds: settings.node_lease_duration_seconds,
        primary_rate: settings.primary_rate,
        secondary_rate: settings.secondary_rate,
        large_zone: settings.large_zone,
        unhealthy_percent: settings.unhealthy_percent,
        rate_policy: settings.rate_policy,
        judge: settings.rules.judge,
        first_sight: settings.rules.first_sight,
        queue: settings.rules.queue,
        bucket: settings.rules.bucket,
        evict_from: settings.rules.evict_from,
        evict_burst: settings.rules.evict_burst,
        evict_rate: settings.rules.evict_rate,
        ready_millis: settings.rules.ready_millis,
        ready_burst: settings.rules.ready_burst,
    }
}
