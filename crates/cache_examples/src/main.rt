//! A cache beside a store that changes: what the store tells of its changes, and what the cache then shows.
#![tactic(auto)]

mod pods;
mod shown;

use kube_base::{NoMemory, Steps};
use kube_objects::Feed;
use object_store::Store;
use pods::{create, place, remove};
use shown::{print_answer, print_cache, print_changes};
use std::io::{self, ErrorKind};
use std::sync::ledger::Blank;
use watch_cache::Cache;

/// The cache is empty, and is synced with the empty store; then two pods are created, each on a node of its own, and one of them is
/// placed on the node of the other; then one is removed.
fn main(rt: HostRuntime) -> io::Result<()> {
    let alloc = rt.alloc();
    let mut store = Store::new(alloc);
    let mut cache = Cache::new(alloc);
    print_cache(&rt, &cache)?;
    take_over(&rt, &mut cache, &store)?;
    print_answer(&rt, "create 30 on 20", create(alloc, &mut store, 30, 20))?;
    print_answer(&rt, "create 31 on 21", create(alloc, &mut store, 31, 21))?;
    print_answer(&rt, "place 30 on 21", place(alloc, &mut store, 30, 1, 21))?;
    print_changes(&rt, &store, 1)?;
    print_changes(&rt, &store, 3)?;
    take_over(&rt, &mut cache, &store)?;
    print_answer(&rt, "remove 31", remove(&mut store, 31))?;
    take_over(&rt, &mut cache, &store)
}

/// Syncs the cache, and prints how many steps that took and what it then shows.
fn take_over(rt: &HostRuntime, cache: &mut Cache, store: &Store) -> io::Result<()> {
    let mut steps = Steps::new(Blank::new(1));
    let from = cache.position();
    if let Err(NoMemory) = sync(cache, store, &mut steps) {
        return Err(io::Error::from(ErrorKind::OutOfMemory));
    }
    let (count, to) = (steps.count(), cache.position());
    println!(rt; "sync from {from} to {to}: {count} steps")?;
    print_cache(rt, cache)
}

/// Takes over what the store changed since the last sync. A cache that is ahead of the store isn't this store's.
fn sync<L>(cache: &mut Cache, store: &Store, steps: &mut Steps<L>) -> Result<(), NoMemory> {
    let position = cache.position();
    if position > store.changes() {
        return Ok(());
    }
    cache.sync_since(&store.since(position), steps)
}
