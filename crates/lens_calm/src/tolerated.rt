// For how many seconds a document's pods tolerate the taint of a node that isn't heard of.
ghost use Rattle.std.specs.Prelude.{◌≡◌, Some, IfOk, OnOk};
ghost use Rattle.outage_laws.specs.Gone.{seconds_of, tolerated_for};
ghost use Rattle.lens_calm.specs.Tolerated as spec;

use kube_base::{NoMemory, UNREACHABLE};
use kube_objects::{Effect, Event, Key, Object, Taint, Toleration, What};
use script_reader::Document;
use std::alloc::Global;
use taint_match::first_tolerating;

fn outage_taint() -> Taint
    ensures { result ≡ spec.outage_taint }
{
    Taint {
        key: UNREACHABLE,
        value: 0,
        effect: Effect::NoExecute,
        added: None,
    }
}

fn seconds_of(seconds: Option<i64>) -> Option<u64>
    ensures { result ≡ seconds_of seconds }
{
    match seconds {
        None => None,
        Some(seconds) => Some(not_below(seconds)),
    }
}

fn not_below(seconds: i64) -> u64
    ensures { Some result ≡ seconds_of (Some seconds) }
{
    if seconds < 0 {
        return 0;
    }
    seconds as u64
}

fn tolerated_for(toleration: Option<Toleration>) -> Option<u64>
    ensures { result ≡ tolerated_for toleration }
{
    match toleration {
        None => Some(0),
        Some(toleration) => seconds_of(toleration.seconds),
    }
}

fn time_of(object: &Object) -> Option<u64>
    ensures { result ≡ spec.time_of object.now }
{
    match object {
        Object::Node(_) | Object::Lease(_) => None,
        Object::Pod(pod) => tolerated_for(first_tolerating(&pod.tolerations, &outage_taint())),
    }
}

fn time_put(what: &What) -> Option<u64>
    ensures { result ≡ spec.time_put what.now }
{
    match what {
        What::Put(_, object) => time_of(object),
        _ => None,
    }
}

fn is_known(times: &[u64], seconds: u64) -> bool
    ensures { result ≡ spec.is_known times.now seconds }
{
    times.iter().any(|time| *time == seconds)
}

fn add_time(times: &mut Vec<u64>, time: Option<u64>) -> Result<(), NoMemory>
    ensures { OnOk result (times.new.items ≡ spec.with_time times.old.items time) }
{
    match time {
        None => Ok(()),
        Some(seconds) => add_seconds(times, seconds),
    }
}

fn add_seconds(times: &mut Vec<u64>, seconds: u64) -> Result<(), NoMemory>
    ensures { OnOk result (times.new.items ≡ spec.with_new (spec.is_known times.old.items seconds) times.old.items seconds) }
{
    if !is_known(times, seconds) {
        times.push(seconds)?;
    }
    Ok(())
}

fn add_objects(times: &mut Vec<u64>, objects: &[(Key, Object)]) -> Result<(), NoMemory>
    ensures { OnOk result (times.new.items ≡ spec.with_objects times.old.items objects.now) }
{
    for item in objects {
        add_time(times, time_of(&item.1))?;
    }
    Ok(())
}

fn add_events(times: &mut Vec<u64>, events: &[Event]) -> Result<(), NoMemory>
    ensures { OnOk result (times.new.items ≡ spec.with_events times.old.items events.now) }
{
    for event in events {
        add_time(times, time_put(&event.what))?;
    }
    Ok(())
}

/// The seconds for which pods of a document tolerate it, each once.
pub(crate) fn times_of(alloc: Global, document: &Document) -> Result<Vec<u64>, NoMemory>
    ensures { IfOk result (λ times. times.items ≡ spec.times document.now.objects.items document.now.events) }
{
    let mut times = Vec::new(alloc);
    add_objects(&mut times, document.objects.items.as_slice())?;
    add_events(&mut times, document.events.as_slice())?;
    Ok(times)
}
