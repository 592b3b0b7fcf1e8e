// Manifests as they are read.
use crate::writable::are_writable;
use kube_base::{Names, NoMemory};
use kube_objects::{Holder, Object};
use manifest_json::{Objects, Path, ReadFault, Scale, read_list, read_object, write_list};
use serde_json::Value;
use std::alloc::Global;

/// The only controller of the documents that manifests are read in.
const CONTROLLER: &[u8] = b"c1";

/// Who the holder of the Lease is, if it is read.
pub(crate) fn holder_in(alloc: Global, text: &str) -> Result<Option<String>, NoMemory> {
    let Ok(value) = Value::from_str(alloc, text) else {
        return Ok(None);
    };
    let mut names = Names::new(alloc)?;
    let known = names.number(CONTROLLER)?;
    match read_object(alloc, &mut names, &[known], &value, &Path::new(alloc)) {
        Ok((_, Object::Lease(lease))) => holder_text(alloc, &names, lease.holder),
        Ok(_) | Err(ReadFault::Refused(_)) => Ok(None),
        Err(ReadFault::NoMemory) => Err(NoMemory),
    }
}

fn holder_text(alloc: Global, names: &Names, holder: Holder) -> Result<Option<String>, NoMemory> {
    let text = match holder {
        Holder::Nobody => String::from_str(alloc, "nobody")?,
        Holder::Proc(process, incarnation) => {
            let place = process.0;
            format!(in alloc; "process {place} incarnation {incarnation}")?
        }
        Holder::Foreign(number) => match names
            .bytes(number)
            .and_then(|bytes| str::from_utf8(bytes).ok())
        {
            Some(identity) => format!(in alloc; "other {identity}")?,
            None => return Ok(None),
        },
    };
    Ok(Some(text))
}

/// How many items of the List are skipped, and the List that is written of the others, if it is read.
pub(crate) fn list_in(alloc: Global, text: &str) -> Result<Option<String>, NoMemory> {
    let Ok(value) = Value::from_str(alloc, text) else {
        return Ok(None);
    };
    let mut names = Names::new(alloc)?;
    let known = names.number(CONTROLLER)?;
    match read_list(
        alloc,
        Scale::Usual,
        &mut names,
        &[known],
        &value,
        &Path::new(alloc),
    ) {
        Ok(objects) => list_text(alloc, &names, known, &objects),
        Err(ReadFault::Refused(_)) => Ok(None),
        Err(ReadFault::NoMemory) => Err(NoMemory),
    }
}

fn list_text(
    alloc: Global,
    names: &Names,
    known: u32,
    objects: &Objects,
) -> Result<Option<String>, NoMemory> {
    if !are_writable(&objects.items) {
        return Ok(None);
    }
    let list = write_list(alloc, names, &[known], &objects.items)?.to_string(alloc)?;
    let skipped = objects.skipped;
    Ok(Some(format!(in alloc; "{skipped} {list}")?))
}
