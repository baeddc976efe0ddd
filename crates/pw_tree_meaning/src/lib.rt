//! What programs do, said over their trees: the store, the next verb of a requester after a path,
//! the runs of servers, and the images of screens.
//! docs/reference/LANGUAGE.md has the rules.
#![tactic(auto)]

pub mod examples;
pub mod laws;
