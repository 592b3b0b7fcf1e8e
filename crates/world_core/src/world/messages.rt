// Messages: requests that arrive, and replies that are delivered.
ghost use Rattle.std.specs.Prelude.{◌≡◌, ◌∷◌, ◌≤◌, ℕ, List, Option, true, IfOk, OnOk};
ghost use Rattle.kube_objects.specs.declared.deed.Deed.{Deed};
ghost use Rattle.kube_objects.specs.Document.{Doc, processes};
ghost use Rattle.kube_objects.specs.Answers.{answer as store_answer, written};
ghost use Rattle.kube_objects.specs.Entry.{Entry};
ghost use Rattle.kube_objects.specs.Identities.{identity};
ghost use Rattle.kube_objects.specs.Kinds.{keeps_kind};
ghost use Rattle.kube_objects.specs.Stored.{request_write, write_of};
ghost use Rattle.object_store.specs.Stands.{StoreStands};
ghost use Rattle.kube_objects.specs.Wire as flights;
ghost use Rattle.history.specs.Steps.{delivered};
ghost use Rattle.kube_objects.specs.Stalls.{at_store as store_at};
ghost use Rattle.pause_times.specs.Owned.{StallsStand};
ghost use Rattle.wire_calls.specs.Messages.{sent_as_told};
ghost use Rattle.wire_calls.specs.WireStands.{as_back, replies_at};
ghost use Rattle.world_process.specs.Plain.{IsFew, IsKnown};
ghost use Rattle.world_core.specs.Worlds.{at_of, IsRunning, Keeps, SendsAsked, MidBeat, AnswersArrivals, DeliversReplies};

use crate::printing::{answer_act, end_act, lead_act, tell};
use crate::replies::send_back;
use crate::world::World;
use crate::world::turns::note;
use kube_base::{Beat, NoMemory, ProcId};
use kube_objects::{Actor, Ask, Deeds, Reply, Request};
use object_store::Store;
use pause_times::Stalls;
use wire_calls::{Back, Fate, Wire};

impl World {
    // Requests that arrive are answered, and each reply is sent.
    pub(super) fn arrivals(&mut self, deeds: &mut Deeds) -> Result<(), NoMemory>
        requires running { IsRunning self.old }
        ensures kept { OnOk result (Keeps self.old self.new) }
        ensures stands { AnswersArrivals self.old deeds.old result self.new deeds.new }
    {
        if !self.wire.has_request(self.beat) {
            return Ok(());
        }
        self.answer_requests(deeds)
    }

    // It stays out of line, so that a beat at which nothing arrives makes no room for it.
    #[inline(never)]
    fn answer_requests(&mut self, deeds: &mut Deeds) -> Result<(), NoMemory>
        requires running { IsRunning self.old }
        ensures kept { OnOk result (Keeps self.old self.new) }
        ensures stands { AnswersArrivals self.old deeds.old result self.new deeds.new }
    {
        'arriving: while let Some(arrived) = self.wire.arrival(self.beat) {
            let reply = answer(&mut self.store, arrived.request)?;
            let processes = self.processes.as_slice();
            send_back(&mut self.wire, processes, &arrived, reply, self.beat)?;
            let actor = Actor::Proc(arrived.who, arrived.incarnation);
            tell(
                deeds,
                self.beat,
                actor,
                answer_act(&arrived.request, &reply),
            )?;
        }
        Ok(())
    }

    // Replies that arrive are delivered.
    pub(super) fn deliveries(&mut self, deeds: &mut Deeds) -> Result<(), NoMemory>
        requires running { IsRunning self.old }
        ensures kept { OnOk result (Keeps self.old self.new) }
        ensures stands { DeliversReplies self.old deeds.old result self.new deeds.new }
    {
        if !self.wire.has_reply(self.beat) {
            return Ok(());
        }
        self.deliver_replies(deeds)
    }

    // It stays out of line, so that a beat at which no reply comes makes no room for it.
    #[inline(never)]
    fn deliver_replies(&mut self, deeds: &mut Deeds) -> Result<(), NoMemory>
        requires running { IsRunning self.old }
        ensures kept { OnOk result (Keeps self.old self.new) }
        ensures stands { DeliversReplies self.old deeds.old result self.new deeds.new }
    {
        'coming: while let Some(back) = self.wire.delivery(self.beat) {
            self.deliver(&back, deeds)?;
        }
        Ok(())
    }

    // One reply is delivered.
    #[inline(never)]
    fn deliver(&mut self, back: &Back, deeds: &mut Deeds) -> Result<(), NoMemory>
        requires running { IsRunning self.old }
        ensures kept { OnOk result (Keeps self.old self.new) }
        ensures left { OnOk result (replies_at self.new.wire (at_of self.old) ≡ replies_at self.old.wire (at_of self.old)) }
        ensures stands { (doc : Doc) (k : ℕ) (before : List Deed) (arriving : List flights.Sent) (coming : List flights.Back)
            (h : List Entry) (b : flights.Back) → MidBeat doc k before arriving coming h self.old deeds.old → back.now ≡ as_back b
            → IsKnown (processes doc) h b.who → IsFew (delivered doc k b h)
            → OnOk result (MidBeat doc k before arriving coming (delivered doc k b h) self.new deeds.new) }
    {
        let i = back.who.0 as usize;
        if i >= self.processes.len() {
            return Ok(());
        }
        let process = &mut self.processes[i];
        let received = process.receive(
            back.incarnation,
            back.number,
            &back.reply,
            self.beat,
            self.restart,
        );
        note(process, i, &mut self.turn_beats);
        let actor = process.actor();
        let who = process.me();
        let incarnation = process.incarnation();
        tell(deeds, self.beat, actor, lead_act(received.lead))?;
        tell(deeds, self.beat, actor, end_act(received.ended))?;
        send_asked(
            &mut self.wire,
            &self.stalls,
            who,
            incarnation,
            received.ask,
            self.beat,
        )
    }
}

// The store's answer. It stays out of line, so that a beat at which nothing arrives costs no more than to see that.
#[inline(never)]
fn answer(store: &mut Store, request: Request) -> Result<Reply, NoMemory>
    requires { keeps_kind request ≡ true }
    ensures answer { (h : List Entry) → StoreStands h store.old → IfOk result (λ reply. reply ≡ store_answer request h) }
    ensures ok { (h : List Entry) (e : Entry) → StoreStands h store.old → write_of e.fact ≡ request_write request (written request h)
        → OnOk result (StoreStands (e ∷ h) store.new) }
{
    store.answer(request)
}

// What a process asks is sent, where it asks.
pub(super) fn send_asked(
    wire: &mut Wire,
    stalls: &Stalls,
    who: ProcId,
    incarnation: u32,
    ask: Option<Ask>,
    now: Beat,
) -> Result<(), NoMemory>
    requires { now.0 ≤ 700000000 }
    ensures same { OnOk result (replies_at wire.new now.0 ≡ replies_at wire.old now.0) }
    ensures sends { OnOk result (SendsAsked now.0 (identity who.0 incarnation) ask stalls.now wire.old wire.new) }
{
    if let Some(ask) = ask {
        let travels = at_store(stalls, wire.request_travel(who, now));
        wire.send(who, incarnation, ask, travels)?;
    }
    Ok(())
}

// What becomes of a message to the store: it waits where that stands still.
fn at_store(stalls: &Stalls, travels: Fate) -> Fate
    ensures { (doc : Doc) (arrives : Option ℕ) → StallsStand doc stalls.now → travels ≡ sent_as_told arrives
        → result ≡ sent_as_told (store_at doc arrives) }
{
    match travels {
        Fate::Lost => Fate::Lost,
        Fate::InFlight(arrives) => Fate::InFlight(stalls.awake(arrives)),
    }
}
