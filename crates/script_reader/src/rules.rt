// The rules of a document: those of its preset, and what it says otherwise.
ghost use Rattle.std.specs.Prelude.{◌≡◌};
ghost use Rattle.serde_json.specs.View.{view};
ghost use Rattle.manifest_json.specs.Faults.{Gives};
ghost use Rattle.script_reader.specs.Rules as spec;

use crate::choice::{
    Preset, bucket_at, evict_from_at, first_sight_at, in_release_at, judge_at, probe_at, queue_at,
    release_at, respect_at, retries_at,
};
use crate::field::whole_at;
use kube_objects::{
    BucketRule, EvictRule, JudgeRule, ProbeRule, QueueRule, ReleaseActing, ReleaseRule,
    RespectRule, RetryRule, Rules, SightRule,
};
use manifest_json::{Path, ReadFault};
use serde_json::Value;

/// The rules with their defaults, or the first refusal at or below the path.
#[tactic(auto, unfolding(crate::specs::Rules::rules_at))]
pub(crate) fn rules_at(preset: Preset, path: &Path, value: &Value) -> Result<Rules, ReadFault>
    ensures { Gives (λ rules. rules) result (spec.rules_at preset path.now (view value.now)) }
{
    let judging = judging_at(rules_of(preset), path, value)?;
    let tainting = tainting_at(judging, path, value)?;
    ending_at(tainting, path, value)
}

/// The rules of a preset.
fn rules_of(preset: Preset) -> Rules
    ensures { result ≡ spec.rules_of preset }
{
    match preset {
        Preset::Own => Rules::own(),
        Preset::Upstream120 => upstream_120(),
        Preset::Upstream136 => upstream_136(),
    }
}

/// The rules of Kubernetes 1.20.
fn upstream_120() -> Rules
    ensures { result ≡ spec.upstream_120 }
{
    Rules {
        retries: RetryRule::Grid,
        respect: RespectRule::Own,
        first_sync_millis: 700,
        probe: ProbeRule::Record,
        judge: JudgeRule::Pass,
        first_sight: SightRule::Strip,
        queue: QueueRule::Again,
        bucket: BucketRule::Full,
        evict_from: EvictRule::Seen,
        evict_burst: 30,
        evict_rate: 20_000,
        release: ReleaseRule::Stop,
        in_release: ReleaseActing::Still,
        ready_millis: 100,
        ready_burst: 15,
    }
}

/// The rules of Kubernetes 1.36: those of 1.20 but for six.
fn upstream_136() -> Rules
    ensures { result ≡ spec.upstream_136 }
{
    Rules {
        retries: RetryRule::Ticks,
        respect: RespectRule::Record,
        evict_burst: 15,
        evict_rate: 10_000,
        release: ReleaseRule::Reread,
        in_release: ReleaseActing::Acts,
        ..upstream_120()
    }
}

/// How a lease is taken, and how nodes are judged.
#[tactic(auto, unfolding(crate::specs::Rules::judging_at))]
fn judging_at(default: Rules, path: &Path, value: &Value) -> Result<Rules, ReadFault>
    ensures { Gives (λ rules. rules) result (spec.judging_at default path.now (view value.now)) }
{
    let retries = retries_at(default.retries, path, value)?;
    let respect = respect_at(default.respect, path, value)?;
    let wait = default.first_sync_millis;
    let first_sync_millis = whole_at(wait, 0, 604_800_000, path, "firstSyncMillis", value)?;
    let probe = probe_at(default.probe, path, value)?;
    let judge = judge_at(default.judge, path, value)?;
    let first_sight = first_sight_at(default.first_sight, path, value)?;
    Ok(Rules {
        retries,
        respect,
        first_sync_millis,
        probe,
        judge,
        first_sight,
        ..default
    })
}

/// How nodes are tainted and pods evicted.
#[tactic(auto, unfolding(crate::specs::Rules::tainting_at))]
fn tainting_at(default: Rules, path: &Path, value: &Value) -> Result<Rules, ReadFault>
    ensures { Gives (λ rules. rules) result (spec.tainting_at default path.now (view value.now)) }
{
    let queue = queue_at(default.queue, path, value)?;
    let bucket = bucket_at(default.bucket, path, value)?;
    let evict_from = evict_from_at(default.evict_from, path, value)?;
    let evict_burst = whole_at(default.evict_burst, 0, 30_000, path, "evictBurst", value)?;
    let evict_rate = whole_at(
        default.evict_rate,
        0,
        1_000_000_000,
        path,
        "evictRate",
        value,
    )?;
    Ok(Rules {
        queue,
        bucket,
        evict_from,
        evict_burst,
        evict_rate,
        ..default
    })
}

/// How a term ends, and what the marks of a pass cost.
#[tactic(auto, unfolding(crate::specs::Rules::ending_at))]
fn ending_at(default: Rules, path: &Path, value: &Value) -> Result<Rules, ReadFault>
    ensures { Gives (λ rules. rules) result (spec.ending_at default path.now (view value.now)) }
{
    let release = release_at(default.release, path, value)?;
    let in_release = in_release_at(default.in_release, path, value)?;
    let ready_millis = whole_at(default.ready_millis, 0, 60_000, path, "readyMillis", value)?;
    let ready_burst = whole_at(default.ready_burst, 0, 30_000, path, "readyBurst", value)?;
    Ok(Rules {
        release,
        in_release,
        ready_millis,
        ready_burst,
        ..default
    })
}

/// Whether a queue that holds a node again and again is filled at passes alone, and who acts in a release has one.
pub(crate) fn agree(rules: Rules) -> bool
    ensures { result ≡ spec.agree rules }
{
    is_filled_at_passes(rules.queue, rules.judge) && has_release(rules.in_release, rules.release)
}

fn is_filled_at_passes(queue: QueueRule, judge: JudgeRule) -> bool
    ensures { result ≡ spec.is_filled_at_passes queue judge }
{
    match queue {
        QueueRule::Once => true,
        QueueRule::Again => match judge {
            JudgeRule::Tick => false,
            JudgeRule::Pass => true,
        },
    }
}

/// Whether who acts in a release has one.
pub fn has_release(acting: ReleaseActing, release: ReleaseRule) -> bool
    ensures { result ≡ spec.has_release acting release }
{
    match acting {
        ReleaseActing::Still => true,
        ReleaseActing::Acts => match release {
            ReleaseRule::Stop => false,
            ReleaseRule::Own => true,
            ReleaseRule::Checked => true,
            ReleaseRule::Reread => true,
        },
    }
}
