use pw_actor_queue::actor::Actor;

/// What a worker is about to apply: an outcome for this actor, of a task with this stamp.
#[derive(Clone, Copy, Debug, PartialEq, Eq)]
pub struct Step {
    pub actor: Actor,
    pub stamp: u64,
}

/// A gate that each worker passes outside the lock, when it has run its task and before it applies
/// what came of it. It has no meaning: a test may hold a worker there.
pub trait Gate: Sync {
    /// Returns once the worker may go on.
    fn pass(&self, step: Step);

    /// Whether no worker is ever held there, so that one that works in place need not pass it.
    fn is_open(&self) -> bool {
        false
    }
}

/// A gate that is always open.
#[derive(Clone, Copy, Debug, PartialEq, Eq)]
pub struct NoGate;

impl Gate for NoGate {
    fn pass(&self, _step: Step) {}

    fn is_open(&self) -> bool {
        true
    }
}
