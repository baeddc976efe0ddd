//! The run of a deck over a trail on a disk in memory, which is crashed and recovered.

pub mod ending;
mod found;
pub mod kept;
mod opened;
pub mod recover;
pub mod run;
mod start;
