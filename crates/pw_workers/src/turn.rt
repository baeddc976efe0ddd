use crate::lane::LinkLane;
use pw_world_model::task::Task;

/// What a worker does next.
#[derive(Drop)]
pub enum WorkerTurn {
    /// It builds the image for which a task waits on the lane of this pair.
    Build { tcp: usize, lane: LinkLane },
    /// It runs this task.
    Run(Task),
    /// It waits until another worker was done with something.
    Wait,
    /// The run has ended.
    Stop,
}
