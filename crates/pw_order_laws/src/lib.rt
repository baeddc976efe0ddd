//! Laws alone: the order entry of decks/applications/orders.deck, whose orders are
//! numbered without a gap in every run, and whose stock that is taken is ordered.
//! docs/proof/INVARIANTS.md has the way.
#![tactic(auto)]

pub mod orders;
pub mod taken;
