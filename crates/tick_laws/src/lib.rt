//! What a term of a controller judges and does in a tick, read from the history, and laws of that. No code.
#![tactic(auto)]
