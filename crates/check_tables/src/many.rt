// Documents with many members.
use kube_base::NoMemory;
use std::alloc::Global;

/// The document of a row: how often the member stands in it, what stands before the members, the member, in which `#`
/// stands for a number from 0, and what stands after the members.
pub(crate) fn document_of(alloc: Global, row: &str) -> Result<Option<String>, NoMemory> {
    match parts_of(row) {
        Some(parts) => Ok(Some(parts.document(alloc)?)),
        None => Ok(None),
    }
}

/// The parts of a document with many members.
#[derive(Clone, Copy)]
struct Parts<'a> {
    count: u32,
    before: &'a str,
    front: &'a str,
    back: &'a str,
    after: &'a str,
}

fn parts_of(row: &str) -> Option<Parts<'_>> {
    let (count, rest) = row.split_once('\t')?;
    let (before, rest) = rest.split_once('\t')?;
    let (member, after) = rest.split_once('\t')?;
    let (front, back) = member.split_once('#')?;
    let count = count.parse::<u32>().ok()?;
    Some(Parts {
        count,
        before,
        front,
        back,
        after,
    })
}

impl Parts<'_> {
    fn document(&self, alloc: Global) -> Result<String, NoMemory> {
        let mut text = String::from_str(alloc, self.before)?;
        for place in 0..self.count {
            text.push_str(self.front)?;
            text.push_str(place.to_string(alloc)?.as_str())?;
            text.push_str(self.back)?;
        }
        text.push_str(self.after)?;
        Ok(text)
    }
}
