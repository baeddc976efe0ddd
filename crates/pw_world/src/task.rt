ghost use Rattle.std.specs.Prelude.{◌≡◌, IfOk};
ghost use Rattle.std.specs.Option.{ForSome};
ghost use Rattle.pw_code.specs.Valid.{IsValid};
ghost use Rattle.pw_code_meaning.specs.Sound.{IsSoundContext};

use pw_base::memory::Memory;
use pw_code::copies::Duplicate;
use pw_code::system::System;
use pw_machine::run::verb;
use pw_world_model::task::{Outcome, Task};
use std::snapshot::Snapshot;

/// Runs the work of a task to its next verb (docs/design/ARCHITECTURE.md). A task without work needs no program.
/// For want of memory the task is spent.
pub fn run_task(system: &System, task: Task) -> Result<Outcome, Memory>
    requires valid { IsValid system.now }
    requires sound { ForSome task.work (IsSoundContext system.now) }
    ensures over { IfOk result (λ outcome. outcome.over.value ≡ system.now) }
    ensures actor { IfOk result (λ outcome. outcome.actor ≡ task.actor) }
    ensures stamp { IfOk result (λ outcome. outcome.stamp ≡ task.stamp) }
    ensures given { IfOk result (λ outcome. outcome.given ≡ task.work) }
{
    let Task { actor, stamp, work } = task;
    let over = Snapshot::of(system);
    let Some(given) = work else {
        return Ok(Outcome {
            actor,
            stamp,
            given: None,
            verb: None,
            work: None,
            over,
        });
    };
    let mut work = given.duplicate()?;
    let verb = verb(system, &mut work)?;
    Ok(Outcome {
        actor,
        stamp,
        given: Some(given),
        verb: Some(verb),
        work: Some(work),
        over,
    })
}
