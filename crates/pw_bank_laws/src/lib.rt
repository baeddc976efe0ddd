//! Laws alone: the bank of decks/applications/bank.deck, the sum of its balances in
//! every run, what its statements tell of them, and the form of its accounts.
//! docs/proof/INVARIANTS.md has it as the worked example.
#![tactic(auto)]

pub mod accounts;
pub mod statements;
pub mod sums;
