//! Laws of calls, of every history: what arrives is answered and delivered; and under the project's own rules but for those of elections and of a
//! term's first sync when it arrives, and what waits. Each is the contract of a function with an empty body.
#![tactic(auto)]

ghost use Rattle.call_laws.specs.Answering.{RequestsAreAnswered, RepliesAreDelivered};
ghost use Rattle.call_laws.specs.Placing.{EntriesStandInBeats, ForcesStand, MessagesTravel};
ghost use Rattle.call_laws.specs.Starting.{StartsAreDown};
ghost use Rattle.call_laws.specs.Waiting.{AnswersDiffer, CallsWait};

/// A request that arrives at a beat is answered in it, and a reply that comes at a beat is delivered in it.
pub fn messages_arrive()
    ensures answered { RequestsAreAnswered }
    ensures delivered { RepliesAreDelivered }
{}

/// A request and a reply arrive after the delay in force, or are lost, as what their beat's events left in force says; a request waits for
/// the end of the store's stall, a reply for that of its receiver's pause.
pub fn messages_travel_in_force()
    ensures beats { EntriesStandInBeats }
    ensures forces { ForcesStand }
    ensures travel { MessagesTravel }
{}

/// A controller's call waits, at each position of the history after its sending, until a reply to it counts, it expires, or its sender
/// is stopped; and a call is answered once.
pub fn calls_wait()
    ensures wait { CallsWait }
    ensures once { AnswersDiffer }
{}

/// A process starts only while it is down.
pub fn processes_start_while_down()
    ensures { StartsAreDown }
{}
