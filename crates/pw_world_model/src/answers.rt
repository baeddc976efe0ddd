use crate::task::Task;

/// What `claim` answers.
#[derive(Debug, Drop)]
pub enum Claim {
    /// A task of an actor that is not out and may work. The actor is out until an outcome for it is
    /// applied.
    Work(Task),
    /// Every actor that may work is out, and there is one.
    Idle,
    /// The log is finished.
    Finished,
}

/// What `apply` answers. Each comes only where none before it does.
#[derive(Clone, Copy, Debug, PartialEq, Eq)]
pub enum Applied {
    /// One entry was pushed.
    Done,
    /// The log has as many entries as it may, and is not finished.
    Limit,
    /// The actor's state has changed since its task was claimed.
    Stale { carried: u64, found: u64 },
    /// The actor's context stands at an answer, and the outcome is not one of it.
    Unrun,
    /// The actor has no step.
    Held,
    /// The actor is a pair, and each of its steps is an APPLIED whose message is not built.
    Unbuilt,
    /// The disc has failed in a call of this world.
    DiscFault,
    /// There is no memory for the entry.
    Memory,
}

/// What `work` answers.
#[derive(Clone, Copy, Debug, PartialEq, Eq)]
pub enum Worked {
    /// A task was claimed, run on and applied, with this answer.
    Applied(Applied),
    /// Every actor that may work is out, and there is one.
    Idle,
    /// The log is finished.
    Finished,
    /// The log has as many entries as it may, and is not finished.
    Limit,
    /// The disc has failed in a call of this world.
    DiscFault,
    /// There is no memory to look for a task or to run it on.
    Memory,
}

/// What `enter` answers.
#[derive(Clone, Copy, Debug, PartialEq, Eq)]
pub enum Entered {
    /// The entry was pushed.
    Done,
    /// It is no step.
    NotAStep,
    /// The disc has failed in a call of this world.
    DiscFault,
    /// There is no memory for the entry.
    Memory,
}
