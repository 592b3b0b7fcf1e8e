// The lines on what is found.
ghost use Rattle.std.specs.Prelude.{◌≡◌, ◌++◌, OnOk, decimal};
ghost use Rattle.lens_tune.specs.Searches.{IsSmall};
ghost use Rattle.lens_tune.specs.Wishes.{IsWish};
ghost use Rattle.lens_plan.specs.Found.{ForPlan};
ghost use Rattle.lens_plan.specs.Lines as spec;

use crate::found::{Found, short_timeout, spare, two_ways};
use itoa::Buffer;
use kube_base::NoMemory;
use lens_tune::{Plan, Wish, bound};
use trace_writer::{add, add_number};

/// Adds what is found for a wish.
pub(crate) fn add_found(text: &mut Vec<u8>, wish: Wish, found: Found) -> Result<(), NoMemory>
    requires wish { IsWish wish }
    requires plan { ForPlan found IsSmall }
    ensures { OnOk result (text.new.items ≡ text.old.items ++ spec.found_text wish found) }
{
    match found {
        Found::Fitting(plan) => add_plan(text, wish, plan),
        Found::Later(least) => add_later(text, wish, least),
        Found::Never => add_never(text, wish),
    }
}

/// Adds a label and so many milliseconds.
#[tactic(auto, unfolding(crate::specs::Lines::millis_text))]
fn add_millis(text: &mut Vec<u8>, label: &[u8], millis: u128) -> Result<(), NoMemory>
    ensures { OnOk result (text.new.items ≡ text.old.items ++ spec.millis_text label.now millis) }
{
    add(text, label)?;
    add_decimal(text, millis)?;
    add(text, b"ms")
}

fn add_decimal(text: &mut Vec<u8>, number: u128) -> Result<(), NoMemory>
    ensures { OnOk result (text.new.items ≡ text.old.items ++ decimal number) }
{
    let mut buffer = Buffer::new();
    add(text, buffer.format(number).as_bytes())
}

/// Adds tenths of a second, in milliseconds.
#[tactic(auto, unfolding(crate::specs::Lines::tenths_text))]
fn add_tenths(text: &mut Vec<u8>, tenths: u32) -> Result<(), NoMemory>
    ensures { OnOk result (text.new.items ≡ text.old.items ++ spec.tenths_text tenths) }
{
    add_number(text, u64::from(tenths) * 100)?;
    add(text, b"ms")
}

#[tactic(auto, unfolding(crate::specs::Lines::plan_text))]
fn add_plan(text: &mut Vec<u8>, wish: Wish, plan: Plan) -> Result<(), NoMemory>
    requires wish { IsWish wish }
    requires plan { IsSmall plan }
    ensures { OnOk result (text.new.items ≡ text.old.items ++ spec.plan_text wish plan) }
{
    add_flags(text, plan)?;
    add_crash(text, bound(wish, plan), b" spare=", spare(wish, plan))?;
    add(text, b"fits\n")
}

/// Adds the flags of kube-controller-manager.
#[tactic(auto, unfolding(crate::specs::Lines::flags_line))]
fn add_flags(text: &mut Vec<u8>, plan: Plan) -> Result<(), NoMemory>
    ensures { OnOk result (text.new.items ≡ text.old.items ++ spec.flags_line plan) }
{
    add_lease(text, plan.lease_seconds)?;
    add(text, b" --leader-elect-renew-deadline=")?;
    add_tenths(text, plan.renew_tenths)?;
    add(text, b" --leader-elect-retry-period=")?;
    add_tenths(text, plan.retry_tenths)?;
    add(text, b"\n")
}

#[tactic(auto, unfolding(crate::specs::Lines::lease_text))]
fn add_lease(text: &mut Vec<u8>, seconds: u32) -> Result<(), NoMemory>
    ensures { OnOk result (text.new.items ≡ text.old.items ++ spec.lease_text seconds) }
{
    add(text, b"--leader-elect-lease-duration=")?;
    add_number(text, u64::from(seconds))?;
    add(text, b"s")
}

/// Adds how long nobody leads after a crash, at most, and other milliseconds beside it.
#[tactic(auto, unfolding(crate::specs::Lines::crash_line))]
fn add_crash(text: &mut Vec<u8>, most: u128, label: &[u8], other: u128) -> Result<(), NoMemory>
    ensures { OnOk result (text.new.items ≡ text.old.items ++ spec.crash_line most label.now other) }
{
    add(text, b"crash nobody-leads")?;
    add_millis(text, b" at-most=", most)?;
    add_millis(text, label, other)?;
    add(text, b"\n")
}

#[tactic(auto, unfolding(crate::specs::Lines::later_text))]
fn add_later(text: &mut Vec<u8>, wish: Wish, least: u128) -> Result<(), NoMemory>
    ensures { OnOk result (text.new.items ≡ text.old.items ++ spec.later_text wish least) }
{
    add_crash(text, least, b" failover=", u128::from(wish.failover_millis))?;
    add(text, b"least-failover=")?;
    add_decimal(text, least)?;
    add(text, b"ms\nnone\n")
}

#[tactic(auto, unfolding(crate::specs::Lines::never_text))]
fn add_never(text: &mut Vec<u8>, wish: Wish) -> Result<(), NoMemory>
    requires { IsWish wish }
    ensures { OnOk result (text.new.items ≡ text.old.items ++ spec.never_text wish) }
{
    add_reason(text, wish)?;
    add(text, b"least-failover=none\nnone\n")
}

/// Adds why no failover is enough.
fn add_reason(text: &mut Vec<u8>, wish: Wish) -> Result<(), NoMemory>
    requires { IsWish wish }
    ensures { OnOk result (text.new.items ≡ text.old.items ++ spec.reason_text wish) }
{
    match short_timeout(wish) {
        Some(millis) => add_short(text, millis, two_ways(wish)),
        None => add(text, b"least-lease=none\n"),
    }
}

#[tactic(auto, unfolding(crate::specs::Lines::short_line))]
fn add_short(text: &mut Vec<u8>, timeout: u32, ways: u64) -> Result<(), NoMemory>
    ensures { OnOk result (text.new.items ≡ text.old.items ++ spec.short_line timeout ways) }
{
    add_millis(text, b"timeout=", u128::from(timeout))?;
    add_millis(text, b" two-ways=", u128::from(ways))?;
    add(text, b"\n")
}
