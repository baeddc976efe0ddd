//! A terminal's work in its control process: which step comes next for a program at its verb, and its next refresh
//! number. By these the world finds the terminal's steps, and enters its SHOWs.
//! docs/design/ARCHITECTURE.md has the rules.
#![tactic(auto)]

pub mod laws;
pub mod refresh;
pub mod step;
pub mod terminal;
