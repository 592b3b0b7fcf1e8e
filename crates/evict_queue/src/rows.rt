// Since when pods have to go, and when they are due by it.
ghost use Rattle.std.specs.Prelude.{◌≡◌, None, Some, OnOk, OnErr, if◌then◌else◌};
ghost use Rattle.evict_queue.specs.Rows.{IsInReach, goes_on, next_row};

use key_map::KeyMap;
use kube_base::{NoMemory, Wall};
use kube_objects::{Bears, Key};
use std::alloc::Global;

/// Whether a pod has to go at once, or after some time.
#[derive(Clone, Copy, Debug, PartialEq, Eq)]
pub enum Going {
    Now,
    After,
}

/// A row of ticks at which a pod has to go: how, and when it is due by the first of them, in microseconds since 1970.
#[derive(Clone, Copy, Debug, PartialEq, Eq)]
pub struct Row {
    pub going: Going,
    pub due: u128,
}

/// The rows that go on, by pods.
#[derive(Drop)]
pub struct Rows {
    map: KeyMap<Row>,
}

impl Rows {
    ghost use Rattle.kube_objects.specs.declared.key.Key.{Key};
    ghost use Rattle.kube_objects.specs.Keys.{key_eq};
    ghost use Rattle.evict_queue.specs.Rows.{row_in};

    /// No pod has a row. Takes no memory.
    pub fn new(alloc: Global) -> Rows
        ensures { (key : Key) → row_in result key ≡ None }
    {
        Rows {
            map: KeyMap::new(alloc),
        }
    }

    /// The pod's row.
    pub fn get(&self, pod: &Key) -> Option<Row>
        ensures { result ≡ row_in self.now pod.now }
    {
        self.map.get(pod).copied()
    }

    /// The pod has this row from now on, or none. If memory runs out no row changes.
    pub fn set(&mut self, pod: Key, row: Option<Row>) -> Result<(), NoMemory>
        ensures ok { OnOk result ((key : Key) → row_in self.new key ≡ (if key_eq pod key then row else row_in self.old key)) }
        ensures err { OnErr result ((key : Key) → row_in self.new key ≡ row_in self.old key) }
    {
        match row {
            None => {
                self.end(&pod);
                Ok(())
            }
            Some(row) => {
                self.map.insert(pod, row)?;
                Ok(())
            }
        }
    }

    /// The pod's row ends. Takes no memory.
    pub fn end(&mut self, pod: &Key)
        ensures { (key : Key) → row_in self.new key ≡ (if key_eq pod.now key then None else row_in self.old key) }
    {
        let _ = self.map.remove(pod);
    }
}

// A pod has to go from now on: in its row, where it went as it does now, else in a new one, by which it is due then.
fn goes_on(row: Option<Row>, going: Going, due: u128) -> Option<Row>
    ensures { result ≡ goes_on row going due }
{
    match row {
        Some(row) if row.going == going => Some(row),
        _ => Some(Row { going, due }),
    }
}

/// The row of a pod after a tick, by its row before it and by what is seen at the tick's end of how long it bears its node's taints; none
/// if its node isn't seen, which leaves the row as it is. A new one is counted from the tick's time of day.
pub fn next_row(row: Option<Row>, sight: Option<Bears>, wall: Wall) -> Option<Row>
    requires { IsInReach sight }
    ensures { result ≡ next_row row sight wall.0 }
{
    let wall = u128::from(wall.0);
    match sight {
        None => row,
        Some(Bears::Untainted) => None,
        Some(Bears::Ever) => None,
        Some(Bears::NotAtAll) => goes_on(row, Going::Now, wall),
        Some(Bears::For(micros)) => goes_on(row, Going::After, wall + micros),
    }
}
