// The JSON on what is found.
ghost use Rattle.std.specs.Prelude.{◌≡◌, ◌++◌, IfOk, OnOk, map};
ghost use Rattle.lens_json.specs.Members.{named};
ghost use Rattle.lens_tune.specs.Searches.{IsSmall};
ghost use Rattle.lens_tune.specs.Wishes.{IsWish};
ghost use Rattle.lens_plan.specs.Found.{ForPlan};
ghost use Rattle.lens_plan.specs.Objects as spec;

use crate::found::{Found, spare, two_ways};
use kube_base::NoMemory;
use lens_json::{Member, Value, add_object};
use lens_room::margin_json::{member, stall};
use lens_tune::{Plan, Wish, bound, timeout_by, wait_by};
use std::alloc::Global;
use trace_writer::add;

/// Adds what is found for a wish as one JSON object.
#[tactic(auto, unfolding(crate::specs::Objects::found_json))]
pub(crate) fn add_json(
    text: &mut Vec<u8>,
    alloc: Global,
    wish: Wish,
    found: Found,
) -> Result<(), NoMemory>
    requires wish { IsWish wish }
    requires plan { ForPlan found IsSmall }
    ensures { OnOk result (text.new.items ≡ text.old.items ++ spec.found_json wish found) }
{
    let members = members(alloc, wish, found)?;
    add_object(text, &members)?;
    add(text, b"\n")
}

fn members(alloc: Global, wish: Wish, found: Found) -> Result<Vec<Member<'static>>, NoMemory>
    requires wish { IsWish wish }
    requires plan { ForPlan found IsSmall }
    ensures { IfOk result (λ members. map named members.items ≡ spec.members_of wish found) }
{
    match found {
        Found::Fitting(plan) => plan_members(alloc, wish, plan),
        Found::Later(least) => no_members(alloc, wish, Some(least)),
        Found::Never => no_members(alloc, wish, None),
    }
}

fn plan_members(alloc: Global, wish: Wish, plan: Plan) -> Result<Vec<Member<'static>>, NoMemory>
    requires wish { IsWish wish }
    requires plan { IsSmall plan }
    ensures { IfOk result (λ members. map named members.items ≡ spec.plan_members wish plan) }
{
    let renew = plan.renew_tenths * 100;
    let members = vec![in alloc;
        Member::number(b"failoverMillis", u64::from(wish.failover_millis)),
        Member::number(b"leaseMillis", u64::from(plan.lease_seconds) * 1000),
        Member::number(b"renewMillis", u64::from(renew)),
        Member::number(b"retryMillis", u64::from(plan.retry_tenths) * 100),
        Member::number(b"timeoutMillis", u64::from(timeout_by(wish.timeout, renew))),
        Member::number(b"waitMillis", u64::from(wait_by(wish, plan))),
        member(b"crashMostMillis", Value::Large(bound(wish, plan))),
        member(b"spareMillis", Value::Large(spare(wish, plan))),
        member(b"fits", Value::Truth(true)),
    ]?;
    Ok(members)
}

fn no_members(
    alloc: Global,
    wish: Wish,
    least: Option<u128>,
) -> Result<Vec<Member<'static>>, NoMemory>
    requires wish { IsWish wish }
    ensures { IfOk result (λ members. map named members.items ≡ spec.no_members wish least) }
{
    let members = vec![in alloc;
        Member::number(b"failoverMillis", u64::from(wish.failover_millis)),
        Member::number(b"twoWaysMillis", two_ways(wish)),
        member(b"leastFailoverMillis", stall(least)),
        member(b"fits", Value::Truth(false)),
    ]?;
    Ok(members)
}
