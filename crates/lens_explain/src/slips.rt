// Values of a document that look as if they were meant in another unit, and nodes of which nothing is heard.
ghost use Rattle.std.specs.Prelude.{◌≡◌, ◌++◌, ◌<◌, ◌^◌, List, IfOk, OnOk, codes, map};
ghost use Rattle.kube_objects.specs.declared.settings.Settings.{Settings};
ghost use Rattle.lens_explain.specs.Slips as spec;
ghost use Rattle.lens_explain.specs.Slips.{millis_slip, seconds_slip, slip_of, unit_text};

use kube_base::NoMemory;
use kube_objects::{Key, Object, Proc, Settings};
use script_reader::Document;
use std::alloc::Global;
use trace_writer::{add, add_number};

/// The least milliseconds that aren't taken for seconds.
const LEAST_MILLIS: u32 = 100;

/// The least seconds that may be taken for milliseconds.
const MANY_SECONDS: u32 = 1_000;

/// A value that looks as if it was meant in another unit.
#[derive(Drop)]
pub(crate) struct Slip {
    pub path: Vec<u8>,
    /// Whether it is in milliseconds, else in seconds.
    pub is_millis: bool,
    pub value: u32,
    /// What was likely meant.
    pub likely: u64,
}

/// The slips of a document, in its order.
#[tactic(auto, unfolding(crate::specs::Slips::slips))]
pub(crate) fn slips(alloc: Global, document: &Document) -> Result<Vec<Slip>, NoMemory>
    ensures { IfOk result (λ found. map slip_of found.items ≡ spec.slips document.now) }
{
    let mut found = Vec::new(alloc);
    add_settings(&mut found, alloc, &document.settings)?;
    add_controllers(
        &mut found,
        alloc,
        &document.settings,
        document.controllers.as_slice(),
    )?;
    Ok(found)
}

fn add_settings(found: &mut Vec<Slip>, alloc: Global, settings: &Settings) -> Result<(), NoMemory>
    ensures { OnOk result (map slip_of found.new.items ≡ map slip_of found.old.items ++ spec.settings_slips settings.now) }
{
    add_seconds(
        found,
        alloc,
        b"/settings/leaseDurationSeconds",
        settings.lease_duration_seconds,
    )?;
    add_millis(
        found,
        alloc,
        b"/settings/renewDeadlineMillis",
        settings.renew_deadline_millis,
    )?;
    add_millis(
        found,
        alloc,
        b"/settings/retryPeriodMillis",
        settings.retry_period_millis,
    )?;
    add_millis(
        found,
        alloc,
        b"/settings/callTimeoutMillis",
        settings.call_timeout_millis,
    )?;
    add_node_settings(found, alloc, settings)
}

fn add_node_settings(
    found: &mut Vec<Slip>,
    alloc: Global,
    settings: &Settings,
) -> Result<(), NoMemory>
    ensures { OnOk result (map slip_of found.new.items ≡ map slip_of found.old.items ++ spec.node_slips settings.now) }
{
    add_millis(
        found,
        alloc,
        b"/settings/monitorPeriodMillis",
        settings.monitor_period_millis,
    )?;
    add_millis(
        found,
        alloc,
        b"/settings/gracePeriodMillis",
        settings.grace_period_millis,
    )?;
    add_millis(
        found,
        alloc,
        b"/settings/startupGraceMillis",
        settings.startup_grace_millis,
    )?;
    add_seconds(
        found,
        alloc,
        b"/settings/nodeLeaseDurationSeconds",
        settings.node_lease_duration_seconds,
    )
}

fn add_controllers(
    found: &mut Vec<Slip>,
    alloc: Global,
    settings: &Settings,
    controllers: &[Proc],
) -> Result<(), NoMemory>
    ensures { OnOk result (map slip_of found.new.items ≡ map slip_of found.old.items ++ spec.slips_from settings.now 0 controllers.now) }
{
    for (place, controller) in controllers.iter().enumerate() {
        add_controller(found, alloc, settings, place, controller)?;
    }
    Ok(())
}

fn add_controller(
    found: &mut Vec<Slip>,
    alloc: Global,
    settings: &Settings,
    place: usize,
    controller: &Proc,
) -> Result<(), NoMemory>
    ensures { OnOk result (map slip_of found.new.items ≡ map slip_of found.old.items ++ spec.controller_slips settings.now place controller.now) }
{
    add_own(
        found,
        alloc,
        false,
        place,
        b"/leaseDurationSeconds",
        controller.lease_seconds,
        settings.lease_duration_seconds,
    )?;
    add_own(
        found,
        alloc,
        true,
        place,
        b"/renewDeadlineMillis",
        controller.renew_millis,
        settings.renew_deadline_millis,
    )?;
    add_own(
        found,
        alloc,
        true,
        place,
        b"/retryPeriodMillis",
        controller.retry_millis,
        settings.retry_period_millis,
    )?;
    add_own(
        found,
        alloc,
        true,
        place,
        b"/callTimeoutMillis",
        controller.timeout_millis,
        settings.call_timeout_millis,
    )
}

/// Adds a controller's own milliseconds or seconds, if they aren't those of the settings and look as if they were meant in the other unit.
fn add_own(
    found: &mut Vec<Slip>,
    alloc: Global,
    is_millis: bool,
    place: usize,
    key: &[u8],
    value: u32,
    standard: u32,
) -> Result<(), NoMemory>
    ensures { OnOk result (map slip_of found.new.items ≡ map slip_of found.old.items ++ spec.own_slip is_millis place key.now value standard) }
{
    if value == standard {
        return Ok(());
    }
    let path = own_path(alloc, place, key)?;
    if is_millis {
        add_millis(found, alloc, &path, value)
    } else {
        add_seconds(found, alloc, &path, value)
    }
}

fn own_path(alloc: Global, place: usize, key: &[u8]) -> Result<Vec<u8>, NoMemory>
    ensures { IfOk result (λ path. path.items ≡ spec.own_path place key.now) }
{
    let mut path = Vec::from_slice(alloc, b"/controllers/")?;
    add_number(&mut path, place as u64)?;
    add(&mut path, key)?;
    Ok(path)
}

/// Adds milliseconds, if they look as if they were meant as seconds.
fn add_millis(found: &mut Vec<Slip>, alloc: Global, path: &[u8], value: u32) -> Result<(), NoMemory>
    ensures { OnOk result (map slip_of found.new.items ≡ map slip_of found.old.items ++ millis_slip path.now value) }
{
    if value < LEAST_MILLIS {
        found.push(Slip {
            path: Vec::from_slice(alloc, path)?,
            is_millis: true,
            value,
            likely: u64::from(value) * 1_000,
        })?;
    }
    Ok(())
}

/// Adds seconds, if they look as if they were meant as milliseconds.
fn add_seconds(
    found: &mut Vec<Slip>,
    alloc: Global,
    path: &[u8],
    value: u32,
) -> Result<(), NoMemory>
    ensures { OnOk result (map slip_of found.new.items ≡ map slip_of found.old.items ++ seconds_slip path.now value) }
{
    if value >= MANY_SECONDS && value % MANY_SECONDS == 0 {
        found.push(Slip {
            path: Vec::from_slice(alloc, path)?,
            is_millis: false,
            value,
            likely: u64::from(value / MANY_SECONDS),
        })?;
    }
    Ok(())
}

/// Whether there are Nodes and no kubelet.
#[tactic(auto, unfolding(crate::specs::Slips::is_unheard))]
pub(crate) fn is_unheard(document: &Document) -> bool
    ensures { result ≡ spec.is_unheard document.now }
{
    document.kubelets.as_slice().is_empty() && has_node(document.objects.items.as_slice())
}

fn has_node(objects: &[(Key, Object)]) -> bool
    ensures { result ≡ spec.has_node objects.now }
{
    objects
        .iter()
        .any(|object| matches!(object.1, Object::Node(_)))
}

/// Adds the line of a slip.
#[tactic(auto, unfolding(crate::specs::Slips::slip_text))]
pub(crate) fn add_slip(text: &mut Vec<u8>, slip: &Slip) -> Result<(), NoMemory>
    ensures { OnOk result (text.new.items ≡ text.old.items ++ spec.slip_text (slip_of slip.now)) }
{
    add(text, b"warning: ")?;
    add(text, &slip.path)?;
    add(text, b" is ")?;
    add_number(text, u64::from(slip.value))?;
    add(text, unit(slip.is_millis))?;
    add_number(text, slip.likely)?;
    add(text, b".\n")
}

fn unit(is_millis: bool) -> &'static [u8]
    ensures { result.now ≡ unit_text is_millis }
{
    if is_millis {
        b" ms: were seconds meant? Then write "
    } else {
        b" s: were milliseconds meant? Then write "
    }
}

/// Adds the line on nodes of which nothing is heard, if it holds.
pub(crate) fn add_unheard(text: &mut Vec<u8>, is_unheard: bool) -> Result<(), NoMemory>
    ensures { OnOk result (text.new.items ≡ text.old.items ++ spec.unheard_text is_unheard) }
{
    if is_unheard {
        add(
            text,
            b"warning: there are Nodes and no kubelets, so all nodes fall silent together, which taints none: a pod is evicted only for a taint that is there already or put. Give each node a kubelet, and epoch the time of the list.\n",
        )
    } else {
        Ok(())
    }
}
