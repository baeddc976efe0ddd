//! Whether an entry of the log is a step by what a monitor keeps, and a step of each actor that has
//! one.
//! docs/design/ARCHITECTURE.md has the rules.
#![tactic(auto)]

mod causes;
mod classes;
mod images;
pub mod may;
mod members;
mod older;
mod own;
mod pairs;
pub mod step;
mod terminals;
pub mod there;
mod units;
mod verbs;
mod works;
