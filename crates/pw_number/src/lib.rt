//! Decimal numbers with a fixed number of places: exact sums, differences and products, quotients
//! that are cut toward zero, and the order of the values.
//! docs/reference/LANGUAGE.md has the rules.
#![tactic(auto)]

pub mod add;
pub mod compare;
pub mod divide;
pub mod laws;
pub mod multiply;
pub mod power;
pub mod scaled;
pub mod size_error;
