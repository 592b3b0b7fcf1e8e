// All of a piece, in as many calls as the sink wants.
ghost use Rattle.std.specs.Prelude.{◌≤◌, ◌<◌, ◌-◌, OnOk, OnErr, IsErr};
ghost use Rattle.byte_edge.specs.Bytes.{Rose, Gives, Gave};

use crate::{Failed, Sink};

/// Gives all the bytes. After a failure a prefix of them was taken.
pub fn give_all<K: Sink>(sink: &mut K, bytes: &[u8]) -> Result<(), Failed>
    ensures all { OnOk result (Gives (K.taken sink.old) (K.taken sink.new) bytes.now) }
    ensures front { OnErr result (Gave (K.taken sink.old) (K.taken sink.new) bytes.now) }
    ensures counted { K.faults sink.old ≤ K.faults sink.new }
    ensures failed { IsErr result → Rose (K.faults sink.old) (K.faults sink.new) }
{
    let mut rest = bytes;
    while !rest.is_empty() {
        let given = sink.give(rest)?;
        let (_, after) = rest.split_at(given);
        rest = after;
    }
    Ok(())
}
