// Changes of the two maps of an eviction queue.
ghost use Rattle.std.specs.Prelude.{◌≡◌, ℕ, [], ◌∷◌, true, false, not, ◌&&◌, ◌||◌, IsSome, OnOk, OnErr, if◌then◌else◌};
ghost use Rattle.kube_objects.specs.declared.key.Key.{Key};
ghost use Rattle.kube_objects.specs.declared.pod.Due.TheVariants.{Never, At};
ghost use Rattle.kube_objects.specs.Keys.{key_eq};
ghost use Rattle.evict_queue.specs.Ahead.{Ahead, HasRoomsBut, InStep, IsWithin};
ghost use Rattle.evict_queue.specs.Changed.{changed, is_time, sets_time, KeysDiffer};
ghost use Rattle.evict_queue.specs.Held.{due_of, has_entry, room_of};

use crate::dues::Dues;
use crate::timed::Timed;
use kube_base::NoMemory;
use kube_objects::{Due, Key};

// Makes room for each pod of the list that gets a due time. No pod's due changes.
fn make_rooms(dues: &mut Dues, list: &[(Key, Due)]) -> Result<(), NoMemory>
    ensures there { OnOk result (HasRoomsBut dues.new list.now []) }
    ensures same { (key : Key) → due_of dues.new key ≡ due_of dues.old key }
{
    let mut rest = list;
    while let Some((pair, others)) = rest.split_first() {
        let (key, due) = *pair;
        if let Due::At(_) = due {
            dues.make_room(key)?;
        }
        rest = others;
    }
    Ok(())
}

// Takes out the due times of a list that are not kept.
fn unstage(dues: &Dues, timed: &mut Timed, list: &[(Key, Due)])
    requires { IsWithin dues.now timed.old list.now }
    ensures { InStep dues.now timed.new }
{
    let mut rest = list;
    while let Some((pair, others)) = rest.split_first() {
        let (key, due) = *pair;
        if let Due::At(time) = due {
            if !dues.is_due_at(&key, time) {
                timed.remove(time, key);
            }
        }
        rest = others;
    }
}

// Adds the due times of a list to the ordered map, all or none.
fn stage(dues: &Dues, timed: &mut Timed, list: &[(Key, Due)]) -> Result<(), NoMemory>
    requires { InStep dues.now timed.old }
    ensures ok { OnOk result (Ahead dues.now timed.new list.now) }
    ensures err { OnErr result (InStep dues.now timed.new) }
{
    let mut rest = list;
    while let Some((pair, others)) = rest.split_first() {
        let (key, due) = *pair;
        if let Due::At(time) = due {
            if timed.insert(time, key).is_err() {
                unstage(dues, timed, list);
                return Err(NoMemory);
            }
        }
        rest = others;
    }
    Ok(())
}

/// Sets the due of a pod whose new due time the ordered map has already, and takes the old due time out of it.
pub(crate) fn settle(dues: &mut Dues, timed: &mut Timed, key: Key, due: Due)
    requires { (time : ℕ) → due ≡ At time → IsSome (room_of dues.old key) }
    ensures dues { (k : Key) → due_of dues.new k ≡ (if key_eq key k then due else due_of dues.old k) }
    ensures rooms { (k : Key) → key_eq key k ≡ false → room_of dues.new k ≡ room_of dues.old k }
    ensures timed { (time : ℕ) (k : Key) → has_entry timed.new time k
        ≡ (not (key_eq key k && (is_time time (due_of dues.old key) && not (is_time time due))) && has_entry timed.old time k) }
{
    let old = match due {
        Due::At(_) => dues.put(key, due),
        Due::Never => dues.remove(&key),
    };
    if let Due::At(time) = old {
        if old != due {
            timed.remove(time, key);
        }
    }
}

// Sets the dues of a list, whose due times the ordered map has already.
fn settle_all(dues: &mut Dues, timed: &mut Timed, list: &[(Key, Due)])
    requires ahead { Ahead dues.old timed.old list.now }
    requires rooms { HasRoomsBut dues.old list.now [] }
    requires differ { KeysDiffer list.now }
    ensures in_step { InStep dues.new timed.new }
    ensures changed { (key : Key) → due_of dues.new key ≡ changed list.now (due_of dues.old key) key }
{
    let mut rest = list;
    while let Some((pair, others)) = rest.split_first() {
        let (key, due) = *pair;
        settle(dues, timed, key, due);
        rest = others;
    }
}

/// Sets the dues of a list, all or none.
pub(crate) fn change(
    dues: &mut Dues,
    timed: &mut Timed,
    list: &[(Key, Due)],
) -> Result<(), NoMemory>
    requires in_step { InStep dues.old timed.old }
    requires differ { KeysDiffer list.now }
    ensures in_step { InStep dues.new timed.new }
    ensures ok { OnOk result ((key : Key) → due_of dues.new key ≡ changed list.now (due_of dues.old key) key) }
    ensures err { OnErr result ((key : Key) → due_of dues.new key ≡ due_of dues.old key) }
{
    make_rooms(dues, list)?;
    stage(dues, timed, list)?;
    settle_all(dues, timed, list);
    Ok(())
}
