// The settings.
ghost use Rattle.std.specs.Prelude.{◌≡◌, codes, false};
ghost use Rattle.serde_json.specs.Find.{get};
ghost use Rattle.serde_json.specs.View.{view};
ghost use Rattle.manifest_json.specs.Faults.{Gives};
ghost use Rattle.script_reader.specs.Fields as fields;
ghost use Rattle.script_reader.specs.Walk as walk;

use crate::choice::{Preset, preset_at};
use crate::field::{epoch_at, fault_under, flag_at, needed_whole, policy_at, whole_at};
use crate::parts::{Beats, Periods, Rates, Timings};
use crate::rules::{agree, rules_at};
use crate::table::{Table, Version, object_in};
use kube_base::Beat;
use kube_objects::{RatePolicy, Rules, Settings};
use manifest_json::codes::{BAD_SETTINGS, OUT_OF_RANGE};
use manifest_json::fault::fault;
use manifest_json::{Path, ReadFault};
use serde_json::Value;

/// The settings with their defaults, and their preset, or the first refusal at or below the path.
#[tactic(auto, unfolding(crate::specs::Walk::settings_at))]
pub(crate) fn settings_at(
    version: Version,
    path: &Path,
    value: &Value,
) -> Result<(Settings, Preset), ReadFault>
    ensures { Gives (λ found. found) result
        (walk.settings_at version path.now (view value.now)) }
{
    object_in(Table::Settings(version), path, value)?;
    let beats = beats_at(path, value)?;
    let timings = timings_at(standard(), path, value)?;
    let periods = periods_at(path, value)?;
    let rates = rates_at(path, value)?;
    let given = flag_at(false, path, "fastRenew", value)?;
    let policy = policy_at(path, "ratePolicy", value)?;
    let preset = preset_at(path, value)?;
    let rules = rules_at(preset, path, value)?;
    let fast = fast_renew_of(given, preset, value);
    let settings = settings_of(beats, timings, periods, rates, fast, policy, rules);
    if_sound(path, timings, rates, &settings)?;
    Ok((settings, preset))
}

/// Whether a leader renews without a Get: as the key says, which has been read, or by the preset.
fn fast_renew_of(given: bool, preset: Preset, value: &Value) -> bool
    ensures { result ≡ walk.fast_renew_of given preset (get (codes "fastRenew") (view value.now)) }
{
    match value.get("fastRenew") {
        Some(_) => given,
        None => renews_fast(preset),
    }
}

fn renews_fast(preset: Preset) -> bool
    ensures { result ≡ walk.renews_fast preset }
{
    match preset {
        Preset::Upstream136 => true,
        Preset::Own | Preset::Upstream120 => false,
    }
}

#[tactic(auto, unfolding(crate::specs::Walk::beats_at))]
fn beats_at(path: &Path, value: &Value) -> Result<Beats, ReadFault>
    ensures { Gives (λ beats. beats) result (walk.beats_at path.now (view value.now)) }
{
    let millis = whole_at(100, 1, 1_000, path, "beatMillis", value)?;
    let number = needed_whole(0, 604_800_000, path, "endBeat", value)?;
    let end = if_end(path, millis, number)?;
    let epoch = epoch_at(path, "epoch", value)?;
    Ok(Beats { millis, end, epoch })
}

/// The last beat, at most a week after the first.
fn if_end(path: &Path, millis: u32, end: u32) -> Result<Beat, ReadFault>
    ensures { Gives (λ end. end) result
        (walk.if_end (fields.under path.now (codes "endBeat")) millis end) }
{
    if u64::from(end) * u64::from(millis) > 604_800_000 {
        return Err(fault_under(OUT_OF_RANGE, path, "endBeat"));
    }
    Ok(Beat(end))
}

/// The timings of leader election, each with its default.
#[tactic(auto, unfolding(crate::specs::Walk::timings_at))]
pub(crate) fn timings_at(default: Timings, path: &Path, value: &Value) -> Result<Timings, ReadFault>
    ensures { Gives (λ timings. timings) result
        (walk.timings_at default path.now (view value.now)) }
{
    let lease_seconds = whole_at(
        default.lease_seconds,
        1,
        86_400,
        path,
        "leaseDurationSeconds",
        value,
    )?;
    let renew_millis = whole_at(
        default.renew_millis,
        1,
        86_400_000,
        path,
        "renewDeadlineMillis",
        value,
    )?;
    let retry_millis = whole_at(
        default.retry_millis,
        1,
        86_400_000,
        path,
        "retryPeriodMillis",
        value,
    )?;
    let timeout_millis = whole_at(
        default.timeout_millis,
        1,
        600_000,
        path,
        "callTimeoutMillis",
        value,
    )?;
    Ok(Timings {
        lease_seconds,
        renew_millis,
        retry_millis,
        timeout_millis,
    })
}

/// The defaults of kube-controller-manager's leader election.
fn standard() -> Timings
    ensures { result ≡ walk.standard }
{
    Timings {
        lease_seconds: 15,
        renew_millis: 10_000,
        retry_millis: 2_000,
        timeout_millis: 2_000,
    }
}

#[tactic(auto, unfolding(crate::specs::Walk::periods_at))]
fn periods_at(path: &Path, value: &Value) -> Result<Periods, ReadFault>
    ensures { Gives (λ periods. periods) result (walk.periods_at path.now (view value.now)) }
{
    let restart_millis = whole_at(1_000, 1, 86_400_000, path, "restartMillis", value)?;
    let monitor_millis = whole_at(5_000, 1, 604_800_000, path, "monitorPeriodMillis", value)?;
    let grace_millis = whole_at(40_000, 1, 604_800_000, path, "gracePeriodMillis", value)?;
    let startup_millis = whole_at(60_000, 1, 604_800_000, path, "startupGraceMillis", value)?;
    let node_lease_seconds = whole_at(40, 1, 86_400, path, "nodeLeaseDurationSeconds", value)?;
    Ok(Periods {
        restart_millis,
        monitor_millis,
        grace_millis,
        startup_millis,
        node_lease_seconds,
    })
}

#[tactic(auto, unfolding(crate::specs::Walk::rates_at))]
fn rates_at(path: &Path, value: &Value) -> Result<Rates, ReadFault>
    ensures { Gives (λ rates. rates) result (walk.rates_at path.now (view value.now)) }
{
    let primary = whole_at(100, 0, 1_000_000, path, "primaryRate", value)?;
    let secondary = whole_at(10, 0, 1_000_000, path, "secondaryRate", value)?;
    let large_zone = whole_at(50, 0, 1_000_000, path, "largeZone", value)?;
    let unhealthy_percent = whole_at(55, 0, 100, path, "unhealthyPercent", value)?;
    Ok(Rates {
        primary,
        secondary,
        large_zone,
        unhealthy_percent,
    })
}

/// Whether the lease outlasts the renew deadline, and that the retry period by more than a fifth of it.
pub(crate) fn is_sound(timings: Timings) -> bool
    ensures { result ≡ walk.is_sound timings }
{
    let lease = u64::from(timings.lease_seconds) * 1_000;
    let renew = u64::from(timings.renew_millis);
    let retry = u64::from(timings.retry_millis);
    renew < lease && 6 * retry < 5 * renew
}

fn settings_of(
    beats: Beats,
    timings: Timings,
    periods: Periods,
    rates: Rates,
    fast_renew: bool,
    rate_policy: RatePolicy,
    rules: Rules,
) -> Settings
    ensures { result ≡ walk.settings_of beats timings periods rates fast_renew rate_policy rules }
{
    Settings {
        beat_millis: beats.millis,
        end_beat: beats.end,
        epoch: beats.epoch,
        lease_duration_seconds: timings.lease_seconds,
        renew_deadline_millis: timings.renew_millis,
        retry_period_millis: timings.retry_millis,
        call_timeout_millis: timings.timeout_millis,
        restart_millis: periods.restart_millis,
        monitor_period_millis: periods.monitor_millis,
        grace_period_millis: periods.grace_millis,
        startup_grace_millis: periods.startup_millis,
        node_lease_duration_seconds: periods.node_lease_seconds,
        primary_rate: rates.primary,
        secondary_rate: rates.secondary,
        large_zone: rates.large_zone,
        unhealthy_percent: rates.unhealthy_percent,
        fast_renew,
        rate_policy,
        rules,
    }
}

/// The own rule of settings.
fn if_sound(
    path: &Path,
    timings: Timings,
    rates: Rates,
    settings: &Settings,
) -> Result<(), ReadFault>
    ensures { Gives (λ _. settings.now) result
        (walk.if_sound path.now timings rates settings.now) }
{
    if is_sound(timings) && rates.secondary <= rates.primary && agree(settings.rules) {
        Ok(())
    } else {
        Err(fault(BAD_SETTINGS, path))
    }
}

/// The timings of the settings.
pub(crate) fn timings_of(settings: &Settings) -> Timings
    ensures { result ≡ walk.timings_of settings.now }
{
    Timings {
        lease_seconds: settings.lease_duration_seconds,
        renew_millis: settings.renew_deadline_millis,
        retry_millis: settings.retry_period_millis,
        timeout_millis: settings.call_timeout_millis,
    }
}
