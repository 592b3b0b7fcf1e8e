//! The one history of a document: what happens at each beat, and what of it is printed.
//!
//! All of this crate is definitions, in `specs/`. The code of the parts is proved against them, and the laws
//! of every history are proved from them alone.
#![tactic(auto)]
