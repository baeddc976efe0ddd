ghost use Rattle.pw_world_model.specs.Tasks.{RanOn};

use pw_actor_queue::actor::Actor;
use pw_code::context::Context;
use pw_code::system::System;
use pw_code::verb::Verb;
use std::snapshot::Snapshot;

/// What is to be done for an actor outside the world: its program is to run on, where there is
/// work.
#[derive(Debug, Drop)]
pub struct Task {
    pub actor: Actor,
    /// The length of the log when the actor's state last changed.
    pub stamp: u64,
    /// The context from which its program is to run on.
    pub work: Option<Context>,
}

/// What came of a task: the work that it was given, and the verb to which the work ran on.
///
/// The type keeps that the three are there together or not at all, and that the verb and the work
/// are what the machine makes of the given work, over the system that only contracts see.
#[derive(Drop)]
pub struct Outcome {
    pub actor: Actor,
    /// The stamp of its task.
    pub stamp: u64,
    /// The work of its task, as it was.
    pub given: Option<Context>,
    pub verb: Option<Verb>,
    /// The work at the verb.
    pub work: Option<Context>,
    /// The system, for contracts only.
    pub over: Snapshot<System>,
    pub ghost ran: { ∥ RanOn over.value given verb work ∥₁ },
}
