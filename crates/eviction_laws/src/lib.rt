//! The claims on evictions: in time, and no earlier, and within the limit, over every history.
#![tactic(auto)]

ghost use Rattle.std.specs.Prelude.{ℕ};
ghost use Rattle.kube_objects.specs.Document.{Doc};
ghost use Rattle.kube_objects.specs.Entry.{Identity};
ghost use Rattle.history.specs.Evictions.{Limit, NotEarly, NotEarlyIn, Prompt, PromptAt};
ghost use Rattle.history.specs.History.{history};

/// Whatever the document, controllers delete pods only when due on the acting controller's clock, and a term's deletes keep the limit, if
/// there is one. They delete each pod by the first tick of a leader whose watch is on and whose requests pass, once its first sync has waited
/// long enough, while the store goes and the limit allows it. So it is at every beat, and of the whole history.
pub fn evictions_are_timely()
    ensures never_early { (doc : Doc) (k : ℕ) → NotEarlyIn doc (history doc k) }
    ensures always_prompt { (doc : Doc) (q : Identity) (k : ℕ) → PromptAt doc q k }
    ensures not_early { (doc : Doc) → NotEarly doc }
    ensures prompt { (doc : Doc) → Prompt doc }
    ensures limited { (doc : Doc) → Limit doc }
{}
