//! What the bytes of a deck come to over a disc pair whose members fail as the deck's disc script says.

pub mod ending;
pub mod pairs;
pub mod run;
