//! Laws alone: how long a run may be, and that it finishes where each actor is asked again and again.
//! docs/design/PROTOCOL.md has the rules.
#![tactic(auto)]

pub mod laws;
