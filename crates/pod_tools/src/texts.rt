// Texts at the end of a buffer, and the texts that numbers stand for.
ghost use Rattle.std.specs.Prelude.{◌≡◌, ◌++◌, OnOk, decimal};
ghost use Rattle.pod_tools.specs.Texts as spec;

use crate::{NodeRow, PodRow};
use itoa::Buffer;
use kube_base::{Names, NoMemory};

/// Adds a text.
pub(crate) fn add(text: &mut Vec<u8>, more: &[u8]) -> Result<(), NoMemory>
    ensures { OnOk result (text.new.items ≡ text.old.items ++ more.now) }
{
    text.extend_from_slice(more)?;
    Ok(())
}

/// Adds a number in decimal.
pub(crate) fn add_number(text: &mut Vec<u8>, number: u64) -> Result<(), NoMemory>
    ensures { OnOk result (text.new.items ≡ text.old.items ++ decimal number) }
{
    let mut buffer = Buffer::new();
    text.extend_from_slice(buffer.format(number).as_bytes())?;
    Ok(())
}

/// Adds a number of 32 bits in decimal.
pub(crate) fn add_small(text: &mut Vec<u8>, number: u32) -> Result<(), NoMemory>
    ensures { OnOk result (text.new.items ≡ text.old.items ++ decimal number) }
{
    add_number(text, u64::from(number))
}

/// The text of a number, or the empty text if none is held.
fn name_of(names: &Names, number: u32) -> &[u8]
    ensures { result.now ≡ spec.text_of names.now number }
{
    match names.bytes(number) {
        Some(text) => text,
        None => b"",
    }
}

/// Adds `NAMESPACE/NAME` of the pod at a place.
pub(crate) fn add_pod(
    text: &mut Vec<u8>,
    names: &Names,
    pods: &[PodRow],
    place: u32,
) -> Result<(), NoMemory>
    ensures { OnOk result (text.new.items ≡ text.old.items ++ spec.pod_text names.now pods.now place) }
{
    match pods.get(place as usize) {
        Some(row) => add_pod_name(text, names, row),
        None => Ok(()),
    }
}

fn add_pod_name(text: &mut Vec<u8>, names: &Names, row: &PodRow) -> Result<(), NoMemory>
    ensures { OnOk result (text.new.items ≡ text.old.items ++ spec.pod_name names.now row.now) }
{
    add(text, name_of(names, row.key.space))?;
    add(text, b"/")?;
    add(text, name_of(names, row.key.name))
}

/// Adds the name of the node at a place.
pub(crate) fn add_node(
    text: &mut Vec<u8>,
    names: &Names,
    nodes: &[NodeRow],
    place: u32,
) -> Result<(), NoMemory>
    ensures { OnOk result (text.new.items ≡ text.old.items ++ spec.node_text names.now nodes.now place) }
{
    match nodes.get(place as usize) {
        Some(row) => add(text, name_of(names, row.name)),
        None => Ok(()),
    }
}
