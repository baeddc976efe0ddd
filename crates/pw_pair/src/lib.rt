//! The pair of a terminal control process: its mode, what its backup holds of each terminal, and the checkpoint messages
//! in flight. Images are bytes here.
//! docs/design/ARCHITECTURE.md has the rules.
#![tactic(auto)]

pub mod backup;
pub mod laws;
pub mod link;
pub mod message;
pub mod mode;
pub mod pair;
pub mod resumed;
pub mod seat;
mod seats;
