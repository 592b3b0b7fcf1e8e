// Replies to requests that arrived.
ghost use Rattle.std.specs.Prelude.{◌≡◌, ◌≤◌, ◌<◌, ℕ, List, Option, length, OnOk};
ghost use Rattle.kube_objects.specs.declared.object.Object as Objects;
ghost use Rattle.kube_objects.specs.Document.{Doc};
ghost use Rattle.kube_objects.specs.Entry.{Entry, Identity, Call};
ghost use Rattle.kube_objects.specs.Identities.{identity};
ghost use Rattle.kube_objects.specs.Pauses.{held_up as held_up_at};
ghost use Rattle.kube_objects.specs.Wire as flights;
ghost use Rattle.wire_calls.specs.Messages.{sent_as_told};
ghost use Rattle.wire_calls.specs.WireStands.{WireStands, requests_at};
ghost use Rattle.world_core.specs.Worlds.{EachStands, with_answer};

use kube_base::{Beat, NoMemory, ProcId};
use kube_objects::Reply;
use wire_calls::{Fate, Sent, Wire};
use world_process::Process;

/// The reply to a request that arrived is sent. It stays out of line, so that a beat at which nothing arrives makes no room for it.
#[inline(never)]
pub fn send_back(
    wire: &mut Wire,
    processes: &[Process],
    to: &Sent,
    reply: Reply,
    now: Beat,
) -> Result<(), NoMemory>
    requires { now.0 ≤ 700000000 }
    ensures same { requests_at wire.new now.0 ≡ requests_at wire.old now.0 }
    ensures ok { (doc : Doc) (count k step : ℕ) (arriving : List flights.Sent) (coming : List flights.Back) (h : List Entry) (q : Identity)
        (call : Call) (wrote : Option Objects.Object)
        → WireStands count k arriving coming h wire.old → now.0 ≡ k → q ≡ identity to.now.who.0 to.now.incarnation
        → call.number ≡ to.now.number → EachStands doc h processes.now → q.process < length processes.now
        → OnOk result (WireStands count k arriving coming (with_answer doc k step q call reply wrote h) wire.new) }
{
    let travels = wire.reply_travel(to.who, now);
    wire.reply(to, reply, held_up(processes, to.who, travels))?;
    Ok(())
}

// What becomes of a message to a process: it waits where the process is paused.
fn held_up(processes: &[Process], who: ProcId, travels: Fate) -> Fate
    ensures { (doc : Doc) (h : List Entry) (comes : Option ℕ) → EachStands doc h processes.now → who.0 < length processes.now
        → travels ≡ sent_as_told comes → result ≡ sent_as_told (held_up_at doc who.0 comes) }
{
    let Fate::InFlight(comes) = travels else {
        return travels;
    };
    let i = who.0 as usize;
    if i >= processes.len() {
        return travels;
    }
    Fate::InFlight(processes[i].resume(comes))
}
