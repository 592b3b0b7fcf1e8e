// What a store and a cache show, in lines.
use crate::pods::key;
use kube_base::{Steps, Version};
use kube_objects::{Changed, Feed};
use object_store::{Store, StoreFault};
use std::io;
use std::sync::ledger::Blank;
use watch_cache::Cache;

/// The names of the pods.
const PODS: [u32; 2] = [30, 31];

/// The names of the nodes.
const NODES: [u32; 2] = [20, 21];

/// Prints the version of a write, or that it was refused.
pub(crate) fn print_answer(
    rt: &HostRuntime,
    what: &str,
    answer: Result<Version, StoreFault>,
) -> io::Result<()> {
    match answer {
        Ok(version) => {
            let version = version.0;
            println!(rt; "{what}: version {version}")
        }
        Err(_) => println!(rt; "{what}: refused"),
    }
}

/// Prints the store's changes from a position on, each with the version that is stored now.
pub(crate) fn print_changes(rt: &HostRuntime, store: &Store, position: u64) -> io::Result<()> {
    if position > store.changes() {
        return println!(rt; "since {position}: no such position");
    }
    let since = store.since(position);
    let count = since.count();
    println!(rt; "since {position}: {count} changes")?;
    for place in 0..count {
        if let Some(key) = since.key(place) {
            let name = key.name;
            match since.object(place) {
                Some((version, _)) => {
                    let version = version.0;
                    println!(rt; "  {place}: pod {name}, version {version}")?
                }
                None => println!(rt; "  {place}: pod {name}, not stored")?,
            }
        }
    }
    Ok(())
}

/// Prints the pods of the cache by name, and the names of those of each node.
pub(crate) fn print_cache(rt: &HostRuntime, cache: &Cache) -> io::Result<()> {
    for name in PODS {
        print_pod(rt, cache, name)?;
    }
    for node in NODES {
        print_pods_of(rt, cache, node)?;
    }
    Ok(())
}

fn print_pod(rt: &HostRuntime, cache: &Cache, name: u32) -> io::Result<()> {
    let mut steps = Steps::new(Blank::new(1));
    match cache.pod(&key(name), &mut steps) {
        Ok(Some((version, pod))) => {
            let (version, node) = (version.0, pod.node);
            println!(rt; "  pod {name}: version {version}, on {node}")
        }
        Ok(None) => println!(rt; "  pod {name}: none"),
        Err(_) => println!(rt; "  pod {name}: not synced"),
    }
}

fn print_pods_of(rt: &HostRuntime, cache: &Cache, node: u32) -> io::Result<()> {
    let mut steps = Steps::new(Blank::new(1));
    let Ok(keys) = cache.pods_of(node, &mut steps) else {
        return println!(rt; "  node {node}: not synced");
    };
    let count = steps.count();
    println!(rt; "  node {node}: {count} pods")?;
    for key in keys.as_slice() {
        let name = key.name;
        println!(rt; "    pod {name}")?;
    }
    Ok(())
}
