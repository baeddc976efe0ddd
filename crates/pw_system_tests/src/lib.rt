//! Tests of whole systems: worlds that go round by claim, run_task and apply or by work, runs with workers, and a lane.
#![tactic(auto)]

#[cfg(test)]
mod lanes;
#[cfg(test)]
mod scenes;
