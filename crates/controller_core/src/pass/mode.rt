// The mode in which every zone is disrupted.
ghost use Rattle.std.specs.Prelude.{◌≡◌, ℕ, List, OnOk};
ghost use Rattle.kube_objects.specs.Document.{Doc};
ghost use Rattle.kube_objects.specs.Clocks.{local};
ghost use Rattle.kube_objects.specs.Entry.{Entry, Identity, Mode};
ghost use Rattle.kube_objects.specs.Health.{is_found};
ghost use Rattle.kube_objects.specs.Modes.{nodes};
ghost use Rattle.kube_objects.specs.Tick as model;
ghost use Rattle.kube_objects.specs.declared.deed.Deed.{Deed};
ghost use Rattle.node_health.specs.Kept.{is_listed};
ghost use Rattle.node_health.specs.Stands.{HealthStands};
ghost use Rattle.object_store.specs.declared.store.Store.{Store};
ghost use Rattle.term_state.specs.MidTick.{IsView, MidTick};
ghost use Rattle.term_state.specs.Sights.{touched_len};
ghost use Rattle.zone_counts.specs.Counted.{zone_counts};

use kube_base::{Local, NoMemory};
use kube_objects::{Act, NumberList};
use node_health::Health;
use term_state::{Cluster, Told, View};
use zone_counts::{ZoneCount, all_full};

// Where the mode ends, each known node counts as heard of.
fn hear_at_end(on: bool, names: &NumberList, health: &mut Health, now: Local)
    ensures { (doc : Doc) (k : ℕ) (q : Identity) (h : List Entry) → HealthStands doc q h health.old
        → ((n : ℕ) → is_found q n h ≡ is_listed names.now n) → now.0 ≡ local doc q.process k
        → HealthStands doc q (model.add k q (Mode on) h) health.new }
{
    if !on {
        health.reset_probes(names, now);
    }
}

/// The mode begins or ends, if it is to. At its end each known node counts as heard of.
pub(crate) fn set_mode(
    zones: &[ZoneCount],
    percent: u32,
    names: &NumberList,
    cluster: &mut Cluster,
    health: &mut Health,
    view: &View,
    told: &mut Told,
) -> Result<(), NoMemory>
    ensures stands { (doc : Doc) (k : ℕ) (q : Identity) (before : List Deed) (h : List Entry) (store : Store)
        → MidTick doc q k before h cluster.old store told.old → HealthStands doc q h health.old → IsView doc k q h view.entry.now
        → ((n : ℕ) → is_found q n h ≡ is_listed names.now n) → zones.now ≡ zone_counts (nodes q h) → percent ≡ doc.settings.unhealthy_percent
        → OnOk result (MidTick doc q k before (model.set_mode doc k q h) cluster.new store told.new
        × HealthStands doc q (model.set_mode doc k q h) health.new) }
    ensures touched { OnOk result (touched_len cluster.new ≡ touched_len cluster.old) }
{
    let on = all_full(zones, percent);
    if on == cluster.mode() {
        return Ok(());
    }
    told.add(Act::Mode(on))?;
    hear_at_end(on, names, health, view.now);
    cluster.set_mode(on)
}
