//! A lane from a primary to its backup. The primary's end gives a receipt for each message that it sends, and the
//! backup's end gives the receipt's message. docs/design/ARCHITECTURE.md has the rule.
#![tactic(auto)]

mod ends;
mod rule;
mod types;

pub use ends::lane;
pub use types::{BackupEnd, PrimaryEnd, Receipt};
