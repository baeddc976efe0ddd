//! The monitor's world over the whole paired system: who acts, what a world answers, what contracts
//! see of it, and the laws by which it goes on.
//! docs/design/ARCHITECTURE.md has the rules.
#![tactic(auto)]

pub mod answers;
pub mod changing;
pub mod claiming;
pub mod contexts;
pub mod due;
pub mod failing;
pub mod known;
pub mod laws;
pub mod pushing;
pub mod requests;
pub mod stepping;
pub mod task;
pub mod touching;
pub mod unready;
pub mod unrun;
