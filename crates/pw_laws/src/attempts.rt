//! The laws of attempts: a running attempt is alone, and a unit commits what it would leave alone.

pub mod laws;
