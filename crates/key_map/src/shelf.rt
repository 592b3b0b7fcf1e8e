// Values of one kind under namespaces and names.
ghost use Rattle.std.specs.Prelude.{◌≡◌, ◌<◌, ◌≤◌, ◌==◌, ◌&&◌, ◌+◌, ◌*◌, ℕ, false, None, Some, length, is_some, IfSome, IfOk, OnOk, OnErr, option_copied, vec_len, if◌then◌else◌};
ghost use Rattle.std.specs.HashMap.{get};
ghost use Rattle.key_map.specs.Rows.{own_row, place_in, place_of};

use kube_base::NoMemory;
use std::alloc::Global;
use std::collections::HashMap;

/// The one namespace and name that a row is for, and their value, if there is one.
#[derive(Drop)]
struct Row<V> {
    space: u32,
    name: u32,
    value: Option<V>,
}

/// Values under namespaces and names.
///
/// Names are numbers from 0 on, so the number of a name is the place in a list that tells its row. A name has one row, for the namespace under
/// which it came first, and keeps it. What it has in other namespaces is found by hash, and so is what came while its number was far beyond
/// that of the values: the places take no more memory than some values do.
#[derive(Drop)]
pub(crate) struct Shelf<V> {
    places: Vec<Option<u32>>,
    rows: Vec<Row<V>>,
    others: HashMap<u64, V>,
}

// A namespace and a name in one number, which is hashed faster than a pair.
fn place_of(space: u32, name: u32) -> u64
    ensures place { result ≡ place_of space name }
    ensures fits { name < 4294967296 }
{
    u64::from(space) * 4_294_967_296 + u64::from(name)
}

// The row of a name, where it has one.
fn place_in(places: &[Option<u32>], name: u32) -> Option<u32>
    ensures { result ≡ place_in places.now name }
{
    match places.get(name as usize) {
        Some(place) => *place,
        None => None,
    }
}

// The row of a name, where that is for this namespace.
fn own_row<V>(places: &[Option<u32>], rows: &[Row<V>], space: u32, name: u32) -> Option<usize>
    ensures row { result ≡ own_row places.now rows.now space name }
    ensures within { IfSome result (λ row. row < length rows.now) }
{
    let place = place_in(places, name)? as usize;
    let row = rows.get(place)?;
    if row.space == space && row.name == name {
        Some(place)
    } else {
        None
    }
}

// How many places there are before there are values, and how many more each value allows.
const FIRST_PLACES: usize = 16_384;

const PLACES_A_VALUE: usize = 16;

// Whether the places up to that of a name are too many beside so many values.
fn is_far(name: u32, values: usize) -> bool
    ensures { result ≡ false → name ≤ 16384 + values * 16 }
{
    name as usize
        > values
            .saturating_mul(PLACES_A_VALUE)
            .saturating_add(FIRST_PLACES)
}

// Makes places up to that of a name.
fn make_places(places: &mut Vec<Option<u32>>, name: u32) -> Result<(), NoMemory>
    ensures room { OnOk result (name < vec_len places.new) }
    ensures same { (n : ℕ) → place_in places.new.items n ≡ place_in places.old.items n }
{
    while places.len() <= name as usize {
        places.push(None)?;
    }
    Ok(())
}

impl<V> Shelf<V> {
    ghost use Rattle.key_map.specs.Held.{held};

    /// No values. Takes no memory.
    pub(crate) fn new(alloc: Global) -> Shelf<V>
        ensures { (s n : ℕ) → held result s n ≡ None }
    {
        Shelf {
            places: Vec::new(alloc),
            rows: Vec::new(alloc),
            others: HashMap::new(alloc),
        }
    }

    /// The value under a namespace and a name; None exactly if there is none.
    pub(crate) fn get(&self, space: u32, name: u32) -> Option<&V>
        ensures { option_copied result ≡ held self.now space name }
    {
        match own_row(&self.places, &self.rows, space, name) {
            Some(row) => self.rows[row].value.as_ref(),
            None => self.others.get(&place_of(space, name)),
        }
    }
}

impl<V: Drop> Shelf<V> {
    ghost use Rattle.key_map.specs.Held.{held};

    /// Puts a value under a namespace and a name, and returns what was there. If memory runs out nothing changes, and nothing is there.
    pub(crate) fn insert(&mut self, space: u32, name: u32, value: V) -> Result<Option<V>, NoMemory>
        ensures old { IfOk result (λ old. old ≡ held self.old space name) }
        ensures put { OnOk result ((s n : ℕ)
            → held self.new s n ≡ (if (space == s) && (name == n) then Some value else held self.old s n)) }
        ensures absent { OnErr result (held self.old space name ≡ None) }
        ensures same { OnErr result ((s n : ℕ) → held self.new s n ≡ held self.old s n) }
    {
        match own_row(&self.places, &self.rows, space, name) {
            Some(row) => Ok(self.rows[row].value.replace(value)),
            None => self.insert_anew(space, name, value),
        }
    }

    /// Takes out what is under a namespace and a name, and returns it; None exactly if there is nothing.
    pub(crate) fn remove(&mut self, space: u32, name: u32) -> Option<V>
        ensures old { result ≡ held self.old space name }
        ensures taken { (s n : ℕ) → held self.new s n ≡ (if (space == s) && (name == n) then None else held self.old s n) }
    {
        match own_row(&self.places, &self.rows, space, name) {
            Some(row) => self.rows[row].value.take(),
            None => self.others.remove(&place_of(space, name)),
        }
    }

    // Whether a value is found by hash. Mostly none is.
    fn is_aside(&self, place: u64) -> bool
        ensures { result ≡ is_some (get ◌==◌ self.now.others place) }
    {
        !self.others.is_empty() && self.others.contains_key(&place)
    }

    // The same, where the name has no row for this namespace.
    fn insert_anew(&mut self, space: u32, name: u32, value: V) -> Result<Option<V>, NoMemory>
        requires { own_row self.old.places.items self.old.rows.items space name ≡ None }
        ensures old { IfOk result (λ old. old ≡ held self.old space name) }
        ensures put { OnOk result ((s n : ℕ)
            → held self.new s n ≡ (if (space == s) && (name == n) then Some value else held self.old s n)) }
        ensures absent { OnErr result (held self.old space name ≡ None) }
        ensures same { OnErr result ((s n : ℕ) → held self.new s n ≡ held self.old s n) }
    {
        let place = place_of(space, name);
        let values = self.rows.len().saturating_add(self.others.len());
        if place_in(&self.places, name).is_some() || self.is_aside(place) || is_far(name, values) {
            return Ok(self.others.insert(place, value)?);
        }
        self.give_row(space, name, value)?;
        Ok(None)
    }

    // A name without a row gets one for this namespace.
    fn give_row(&mut self, space: u32, name: u32, value: V) -> Result<(), NoMemory>
        requires { place_in self.old.places.items name ≡ None }
        ensures put { OnOk result ((s n : ℕ)
            → held self.new s n ≡ (if (space == s) && (name == n) then Some value else held self.old s n)) }
        ensures same { OnErr result ((s n : ℕ) → held self.new s n ≡ held self.old s n) }
    {
        let Ok(row) = u32::try_from(self.rows.len()) else {
            return Err(NoMemory);
        };
        make_places(&mut self.places, name)?;
        self.rows.push(Row {
            space,
            name,
            value: Some(value),
        })?;
        self.places[name as usize] = Some(row);
        Ok(())
    }
}
