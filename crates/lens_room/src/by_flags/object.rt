// The JSON of settings.
ghost use Rattle.std.specs.Prelude.{◌≡◌, ◌++◌, IfOk, OnOk, codes, map};
ghost use Rattle.lens_json.specs.Members.{data_of, named, text};
ghost use Rattle.lens_room.specs.MarginJson.{number_if};
ghost use Rattle.lens_room.specs.Flags as words;
ghost use Rattle.lens_room.specs.FlagJson as spec;
ghost use Rattle.lens_room.specs.Ranges.{AreInRange};

use crate::by_flags::flags::Flags;
use crate::by_flags::lines::{acting_word, release_word};
use crate::by_flags::margin::{flags_margin, greatest_skew, is_safe};
use crate::margin_json::{member, seconds, slack, stall};
use kube_base::NoMemory;
use kube_objects::{ReleaseActing, ReleaseRule};
use lens_json::{Member, Value, add_object};
use lens_margin::Margin;
use std::alloc::Global;
use trace_writer::add;

/// Adds what settings come to as one JSON object.
#[tactic(auto, unfolding(crate::specs::FlagJson::settings_json))]
pub(crate) fn add_json(text: &mut Vec<u8>, alloc: Global, flags: &Flags) -> Result<(), NoMemory>
    requires { AreInRange flags.now }
    ensures { OnOk result (text.new.items ≡ text.old.items ++ spec.settings_json flags.now) }
{
    let margin = flags_margin(flags);
    let skew = greatest_skew(flags);
    let members = members(alloc, flags, margin, skew, is_safe(flags))?;
    add_object(text, &members)?;
    add(text, b"\n")
}

/// The members of that object.
fn members(
    alloc: Global,
    flags: &Flags,
    margin: Margin,
    skew: Option<u64>,
    safe: bool,
) -> Result<Vec<Member<'static>>, NoMemory>
    ensures { IfOk result (λ members. map named members.items ≡ spec.members_with flags.now margin skew safe) }
{
    let is_renew_deadline = is_renew_deadline(flags.timeout_millis);
    let members = vec![in alloc;
        Member::number(b"timeoutMillis", u64::from(flags.timeout())),
        member(b"timeoutIsRenewDeadline", Value::Truth(is_renew_deadline)),
        Member::number(b"skewPpm", u64::from(flags.skew_ppm)),
        release_member(flags.release),
        acting_member(flags.in_release),
        member(b"leaseMillis", Value::Large(margin.lease)),
        member(b"mustExceedMillis", Value::Large(margin.must_exceed)),
        member(b"slackMillis", slack(margin.lease, margin.must_exceed)),
        member(b"leastLeaseSeconds", seconds(margin.least_seconds)),
        member(b"longestStallMillis", stall(margin.longest_stall)),
        member(b"greatestSkewPpm", ppm(skew)),
        member(b"safe", Value::Truth(safe)),
    ]?;
    Ok(members)
}

fn release_member(release: ReleaseRule) -> Member<'static>
    ensures { named result ≡ text (codes "release") (words.release_word release) }
{
    Member::text(b"release", release_word(release))
}

fn acting_member(acting: ReleaseActing) -> Member<'static>
    ensures { named result ≡ text (codes "inRelease") (words.acting_word acting) }
{
    Member::text(b"inRelease", acting_word(acting))
}

/// Whether a timeout is the renew deadline, as none is given.
pub fn is_renew_deadline(timeout: Option<u32>) -> bool
    ensures { result ≡ spec.is_renew_deadline timeout }
{
    match timeout {
        None => true,
        Some(_) => false,
    }
}

fn ppm(skew: Option<u64>) -> Value<'static>
    ensures { data_of result ≡ number_if skew }
{
    match skew {
        Some(ppm) => Value::Number(ppm),
        None => Value::Nothing,
    }
}
