// The words of rules, each with its default.
ghost use Rattle.std.specs.Prelude.{◌≡◌, codes};
ghost use Rattle.serde_json.specs.View.{view};
ghost use Rattle.manifest_json.specs.Faults.{Gives};
ghost use Rattle.script_reader.specs.Choices as choices;
ghost use Rattle.script_reader.specs.Choices.{choice_at};

use crate::field::{or_refuse, text_in};
use kube_objects::{
    BucketRule, EvictRule, JudgeRule, ProbeRule, QueueRule, ReleaseActing, ReleaseRule,
    RespectRule, RetryRule, SightRule,
};
use manifest_json::codes::OUT_OF_RANGE;
use manifest_json::{Path, ReadFault};
use serde_json::Value;

/// Whose rules a document goes by if it says nothing else: the project's own, or those of a version of Kubernetes.
#[derive(Clone, Copy)]
pub enum Preset {
    Own,
    Upstream120,
    Upstream136,
}

/// The preset: the project's own if none is given.
pub(crate) fn preset_at(path: &Path, value: &Value) -> Result<Preset, ReadFault>
    ensures { Gives (λ preset. preset) result (choices.preset_at path.now (view value.now)) }
{
    match value.get("rules") {
        Some(found) => {
            let text = text_in(path, "rules", found)?;
            or_refuse(preset_of(text), OUT_OF_RANGE, path, "rules")
        }
        None => Ok(Preset::Own),
    }
}

fn preset_of(text: &str) -> Option<Preset>
    ensures { result ≡ choices.preset_of text.now }
{
    if text == "own" {
        Some(Preset::Own)
    } else if text == "1.20" {
        Some(Preset::Upstream120)
    } else if text == "1.36" {
        Some(Preset::Upstream136)
    } else {
        None
    }
}

/// When a leader's attempt after a failed one comes.
pub(crate) fn retries_at(
    default: RetryRule,
    path: &Path,
    value: &Value,
) -> Result<RetryRule, ReadFault>
    ensures { Gives (λ rule. rule) result
        (choice_at choices.retries_of default path.now (codes "retries") (view value.now)) }
{
    match value.get("retries") {
        Some(found) => {
            let text = text_in(path, "retries", found)?;
            or_refuse(retries_of(text), OUT_OF_RANGE, path, "retries")
        }
        None => Ok(default),
    }
}

fn retries_of(text: &str) -> Option<RetryRule>
    ensures { result ≡ choices.retries_of text.now }
{
    if text == "after" {
        Some(RetryRule::After)
    } else if text == "grid" {
        Some(RetryRule::Grid)
    } else if text == "ticks" {
        Some(RetryRule::Ticks)
    } else {
        None
    }
}

/// Whose lease duration a candidate respects.
pub(crate) fn respect_at(
    default: RespectRule,
    path: &Path,
    value: &Value,
) -> Result<RespectRule, ReadFault>
    ensures { Gives (λ rule. rule) result
        (choice_at choices.respect_of default path.now (codes "respect") (view value.now)) }
{
    match value.get("respect") {
        Some(found) => {
            let text = text_in(path, "respect", found)?;
            or_refuse(respect_of(text), OUT_OF_RANGE, path, "respect")
        }
        None => Ok(default),
    }
}

fn respect_of(text: &str) -> Option<RespectRule>
    ensures { result ≡ choices.respect_of text.now }
{
    if text == "record" {
        Some(RespectRule::Record)
    } else if text == "own" {
        Some(RespectRule::Own)
    } else {
        None
    }
}

/// From when a node counts as silent.
pub(crate) fn probe_at(
    default: ProbeRule,
    path: &Path,
    value: &Value,
) -> Result<ProbeRule, ReadFault>
    ensures { Gives (λ rule. rule) result
        (choice_at choices.probe_of default path.now (codes "probe") (view value.now)) }
{
    match value.get("probe") {
        Some(found) => {
            let text = text_in(path, "probe", found)?;
            or_refuse(probe_of(text), OUT_OF_RANGE, path, "probe")
        }
        None => Ok(default),
    }
}

fn probe_of(text: &str) -> Option<ProbeRule>
    ensures { result ≡ choices.probe_of text.now }
{
    if text == "run" {
        Some(ProbeRule::Run)
    } else if text == "record" {
        Some(ProbeRule::Record)
    } else {
        None
    }
}

/// When nodes are judged.
pub(crate) fn judge_at(
    default: JudgeRule,
    path: &Path,
    value: &Value,
) -> Result<JudgeRule, ReadFault>
    ensures { Gives (λ rule. rule) result
        (choice_at choices.judge_of default path.now (codes "judge") (view value.now)) }
{
    match value.get("judge") {
        Some(found) => {
            let text = text_in(path, "judge", found)?;
            or_refuse(judge_of(text), OUT_OF_RANGE, path, "judge")
        }
        None => Ok(default),
    }
}

fn judge_of(text: &str) -> Option<JudgeRule>
    ensures { result ≡ choices.judge_of text.now }
{
    if text == "tick" {
        Some(JudgeRule::Tick)
    } else if text == "pass" {
        Some(JudgeRule::Pass)
    } else {
        None
    }
}

/// What a term does with the condition taints of a node that it first sees.
pub(crate) fn first_sight_at(
    default: SightRule,
    path: &Path,
    value: &Value,
) -> Result<SightRule, ReadFault>
    ensures { Gives (λ rule. rule) result
        (choice_at choices.first_sight_of default path.now (codes "firstSight") (view value.now)) }
{
    match value.get("firstSight") {
        Some(found) => {
            let text = text_in(path, "firstSight", found)?;
            or_refuse(first_sight_of(text), OUT_OF_RANGE, path, "firstSight")
        }
        None => Ok(default),
    }
}

fn first_sight_of(text: &str) -> Option<SightRule>
    ensures { result ≡ choices.first_sight_of text.now }
{
    if text == "keep" {
        Some(SightRule::Keep)
    } else if text == "strip" {
        Some(SightRule::Strip)
    } else {
        None
    }
}

/// How often a zone's queue holds a node.
pub(crate) fn queue_at(
    default: QueueRule,
    path: &Path,
    value: &Value,
) -> Result<QueueRule, ReadFault>
    ensures { Gives (λ rule. rule) result
        (choice_at choices.queue_of default path.now (codes "queue") (view value.now)) }
{
    match value.get("queue") {
        Some(found) => {
            let text = text_in(path, "queue", found)?;
            or_refuse(queue_of(text), OUT_OF_RANGE, path, "queue")
        }
        None => Ok(default),
    }
}

fn queue_of(text: &str) -> Option<QueueRule>
    ensures { result ≡ choices.queue_of text.now }
{
    if text == "once" {
        Some(QueueRule::Once)
    } else if text == "again" {
        Some(QueueRule::Again)
    } else {
        None
    }
}

/// How a zone's bucket starts.
pub(crate) fn bucket_at(
    default: BucketRule,
    path: &Path,
    value: &Value,
) -> Result<BucketRule, ReadFault>
    ensures { Gives (λ rule. rule) result
        (choice_at choices.bucket_of default path.now (codes "bucket") (view value.now)) }
{
    match value.get("bucket") {
        Some(found) => {
            let text = text_in(path, "bucket", found)?;
            or_refuse(bucket_of(text), OUT_OF_RANGE, path, "bucket")
        }
        None => Ok(default),
    }
}

fn bucket_of(text: &str) -> Option<BucketRule>
    ensures { result ≡ choices.bucket_of text.now }
{
    if text == "empty" {
        Some(BucketRule::Empty)
    } else if text == "full" {
        Some(BucketRule::Full)
    } else {
        None
    }
}

/// From when the seconds of a toleration count.
pub(crate) fn evict_from_at(
    default: EvictRule,
    path: &Path,
    value: &Value,
) -> Result<EvictRule, ReadFault>
    ensures { Gives (λ rule. rule) result
        (choice_at choices.evict_from_of default path.now (codes "evictFrom") (view value.now)) }
{
    match value.get("evictFrom") {
        Some(found) => {
            let text = text_in(path, "evictFrom", found)?;
            or_refuse(evict_from_of(text), OUT_OF_RANGE, path, "evictFrom")
        }
        None => Ok(default),
    }
}

fn evict_from_of(text: &str) -> Option<EvictRule>
    ensures { result ≡ choices.evict_from_of text.now }
{
    if text == "added" {
        Some(EvictRule::Added)
    } else if text == "seen" {
        Some(EvictRule::Seen)
    } else {
        None
    }
}

/// How a leader gives up its Lease.
pub(crate) fn release_at(
    default: ReleaseRule,
    path: &Path,
    value: &Value,
) -> Result<ReleaseRule, ReadFault>
    ensures { Gives (λ rule. rule) result
        (choice_at choices.release_of default path.now (codes "release") (view value.now)) }
{
    match value.get("release") {
        Some(found) => {
            let text = text_in(path, "release", found)?;
            or_refuse(release_of(text), OUT_OF_RANGE, path, "release")
        }
        None => Ok(default),
    }
}

fn release_of(text: &str) -> Option<ReleaseRule>
    ensures { result ≡ choices.release_of text.now }
{
    if text == "stop" {
        Some(ReleaseRule::Stop)
    } else if text == "own" {
        Some(ReleaseRule::Own)
    } else if text == "checked" {
        Some(ReleaseRule::Checked)
    } else if text == "reread" {
        Some(ReleaseRule::Reread)
    } else {
        None
    }
}

/// Whether a leader whose deadline has come acts until its release has ended.
pub(crate) fn in_release_at(
    default: ReleaseActing,
    path: &Path,
    value: &Value,
) -> Result<ReleaseActing, ReadFault>
    ensures { Gives (λ rule. rule) result
        (choice_at choices.in_release_of default path.now (codes "inRelease") (view value.now)) }
{
    match value.get("inRelease") {
        Some(found) => {
            let text = text_in(path, "inRelease", found)?;
            or_refuse(in_release_of(text), OUT_OF_RANGE, path, "inRelease")
        }
        None => Ok(default),
    }
}

fn in_release_of(text: &str) -> Option<ReleaseActing>
    ensures { result ≡ choices.in_release_of text.now }
{
    if text == "still" {
        Some(ReleaseActing::Still)
    } else if text == "acts" {
        Some(ReleaseActing::Acts)
    } else {
        None
    }
}
