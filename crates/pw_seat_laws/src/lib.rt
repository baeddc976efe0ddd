//! Laws alone: the seat reservation of decks/applications/seats.deck. No seat that was sold changes its holder in any run.
//! docs/proof/INVARIANTS.md tells of it.
#![tactic(auto)]

pub mod seats;
