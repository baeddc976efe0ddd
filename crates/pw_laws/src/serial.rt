//! The headline of the paired system: every run is serializable, and no unfinished run is stuck.

pub mod laws;
