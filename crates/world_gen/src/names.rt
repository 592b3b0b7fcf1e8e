// The names of a document and their numbers.
ghost use Rattle.std.specs.Prelude.{◌≡◌, ℕ, ◌<◌, ◌≤◌, ◌+◌, ◌-◌, ◌^◌, false, [], ◌∷◌, ◌++◌, length, codes, string_bytes, IfOk, OnOk};
ghost use Rattle.std.specs.List.{list_any};
ghost use Rattle.std.specs.Str.{bytes_eq};
ghost use Rattle.world_gen.specs.Numbers as spec;

use itoa::Buffer;
use kube_base::{Names, NoMemory};
use std::alloc::Global;

pub(crate) fn controller_number(place: u32) -> u32
    requires { place < 3 }
    ensures { result ≡ spec.controller_number place }
{
    10 + place
}

pub(crate) fn node_number(i: u32) -> u32
    requires { i < 1000 }
    ensures { result ≡ spec.node_number i }
{
    13 + i
}

pub(crate) fn region_number(nodes: u32) -> u32
    requires { nodes ≤ 1000 }
    ensures { result ≡ spec.region_number nodes }
{
    13 + nodes
}

pub(crate) fn zone_number(nodes: u32, i: u32) -> u32
    requires { nodes ≤ 1000 }
    ensures { result ≡ spec.zone_number nodes i }
{
    14 + nodes + i % 5
}

pub(crate) fn space_number(nodes: u32) -> u32
    requires { nodes ≤ 1000 }
    ensures { result ≡ spec.space_number nodes }
{
    14 + nodes + zones(nodes)
}

pub(crate) fn pod_number(nodes: u32, j: u32) -> u32
    requires nodes { nodes ≤ 1000 }
    requires pod { j < 30000 }
    ensures { result ≡ spec.pod_number nodes j }
{
    15 + nodes + zones(nodes) + j
}

/// How many zones there are.
fn zones(nodes: u32) -> u32
    ensures value { result ≡ spec.zones nodes }
    ensures few { result ≤ 5 }
{
    nodes.min(5)
}

/// All names.
pub(crate) fn names_of(alloc: Global, nodes: u32, pods: u32) -> Result<Names, NoMemory>
    requires nodes { nodes ≤ 1000 }
    requires pods { pods ≤ 30000 }
    ensures { IfOk result (λ names. names ≡ spec.generated_names nodes pods) }
{
    let mut names = controller_names(alloc)?;
    add_all(alloc, &mut names, b'n', nodes)?;
    add_new(&mut names, "r1")?;
    add_all(alloc, &mut names, b'z', zones(nodes))?;
    add_pods(alloc, &mut names, pods)?;
    Ok(names)
}

/// The fixed names and the controllers'.
#[tactic(auto, unfolding(kube_base::specs::Names::with_name))]
fn controller_names(alloc: Global) -> Result<Names, NoMemory>
    ensures { IfOk result (λ names. names ≡ spec.controller_names) }
{
    let mut names = Names::new(alloc)?;
    names.number(b"c0")?;
    names.number(b"c1")?;
    names.number(b"c2")?;
    Ok(names)
}

/// Adds the Pods' names behind that of their namespace, if there are Pods.
fn add_pods(alloc: Global, names: &mut Names, pods: u32) -> Result<(), NoMemory>
    requires few { length names.old + pods < 2 ^ 32 - 1 }
    requires space { list_any (bytes_eq (codes "default")) names.old ≡ false }
    requires fresh { (i : ℕ) → list_any (bytes_eq (spec.short_name 112 i)) names.old ≡ false }
    ensures { OnOk result (names.new ≡ names.old ++ spec.pod_names pods) }
{
    if pods > 0 {
        add_new(names, "default")?;
        add_all(alloc, names, b'p', pods)?;
    }
    Ok(())
}

/// Adds a text that is new.
fn add_new(names: &mut Names, text: &str) -> Result<(), NoMemory>
    requires few { length names.old < 2 ^ 32 - 1 }
    requires fresh { list_any (bytes_eq text.now) names.old ≡ false }
    ensures { OnOk result (names.new ≡ names.old ++ text.now ∷ []) }
{
    names.number(text.as_bytes())?;
    Ok(())
}

/// Adds so many texts of a letter and a number, from 0 on.
fn add_all(alloc: Global, names: &mut Names, letter: u8, count: u32) -> Result<(), NoMemory>
    requires few { length names.old + count < 2 ^ 32 }
    requires ascii { letter < 128 }
    requires fresh { (i : ℕ) → i < count → list_any (bytes_eq (spec.short_name letter i)) names.old ≡ false }
    ensures { OnOk result (names.new ≡ names.old ++ spec.short_names letter count) }
{
    for i in 0..count {
        let text = short_name(alloc, letter, i)?;
        add_new(names, text.as_str())?;
    }
    Ok(())
}

/// A letter and then a number in decimal.
fn short_name(alloc: Global, letter: u8, i: u32) -> Result<String, NoMemory>
    requires { letter < 128 }
    ensures { IfOk result (λ text. string_bytes text ≡ spec.short_name letter i) }
{
    let mut buffer = Buffer::new();
    let mut text = String::new(alloc);
    text.push(char::from(letter))?;
    text.push_str(buffer.format(i))?;
    Ok(text)
}
