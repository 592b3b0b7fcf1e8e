// Texts at the end of a buffer, and the texts that numbers stand for.
ghost use Rattle.std.specs.Prelude.{◌≡◌, ◌<◌, ◌≤◌, ◌++◌, OnOk, decimal, length};
ghost use Rattle.kube_base.specs.Times.{last_wall, seconds_text};
ghost use Rattle.trace_writer.specs.Names.{text_of};

use itoa::Buffer;
use kube_base::{Name, Names, NoMemory, Wall, write_seconds};
use std::alloc::Global;

/// Adds a text.
pub fn add(text: &mut Vec<u8>, more: &[u8]) -> Result<(), NoMemory>
    ensures { OnOk result (text.new.items ≡ text.old.items ++ more.now) }
{
    text.extend_from_slice(more)?;
    Ok(())
}

/// Adds a number in decimal.
pub fn add_number(text: &mut Vec<u8>, number: u64) -> Result<(), NoMemory>
    ensures { OnOk result (text.new.items ≡ text.old.items ++ decimal number) }
{
    let mut buffer = Buffer::new();
    text.extend_from_slice(buffer.format(number).as_bytes())?;
    Ok(())
}

/// Adds a time in the form in seconds.
pub(crate) fn add_time(alloc: Global, text: &mut Vec<u8>, at: Wall) -> Result<(), NoMemory>
    requires { at.0 ≤ last_wall }
    ensures { OnOk result (text.new.items ≡ text.old.items ++ seconds_text at) }
{
    let time = write_seconds(alloc, at)?;
    add(text, time.bytes())
}

/// The text of a number that is held.
pub fn name_of(names: &Names, number: u32) -> &[u8]
    requires { number < length names.now }
    ensures { result.now ≡ text_of names.now number }
{
    match names.bytes(number) {
        Some(text) => text,
        None => unreachable!(),
    }
}

/// The name of a process.
pub(crate) fn process_of(processes: &[Name], place: u32) -> &[u8]
    requires { place < length processes.now }
    ensures { result.now ≡ text_of processes.now place }
{
    processes[place as usize].bytes()
}
