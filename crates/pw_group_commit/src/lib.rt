//! A disc over a trail that makes the units which commit durable in groups. docs/design/STORAGE.md has the rules.
#![tactic(auto)]

pub mod followed_log;
pub mod follower;
pub mod group_log;
pub mod group_trail;
pub mod lines;
