// Pauses in order.
ghost use Rattle.std.specs.Prelude.{◌≡◌};
ghost use Rattle.pause_times.specs.Owned.{beat_of};
ghost use Rattle.pause_times.specs.Spans.{AreInOrder, last_in};

use kube_base::Beat;

/// A pause of a process, or a stall of the store: the beat at which it begins, and the one at which it is over.
#[derive(Clone, Copy, Debug)]
pub struct Pause {
    pub begins: Beat,
    pub ends: Beat,
}

/// The beat at which the pause is over in which a beat lies.
pub(crate) fn end_among(all: &Vec<Pause>, beat: Beat) -> Option<Beat>
    ensures { AreInOrder all.now.items → beat_of result ≡ last_in beat.0 all.now.items }
{
    let begun = all.partition_point(|pause| pause.begins.0 <= beat.0);
    if begun == 0 {
        return None;
    }
    let last = all[begun - 1];
    if beat.0 < last.ends.0 {
        Some(last.ends)
    } else {
        None
    }
}
