ghost use Rattle.std.specs.Prelude.{◌≡◌, true, IfOk};
ghost use Rattle.std.specs.Option.{option_copied};
ghost use Rattle.pw_pair.specs.Bodies.{fits_held, image_in};

use crate::message::{Body, Carried};
use pw_base::bytes::Bytes;
use pw_base::memory::Memory;
use pw_code::copies::Duplicate;
use pw_image::changes::patch;
use std::alloc::Global;
use std::marker::Model;

/// The work of building the image of a message outside its pair: copies of the message and of the
/// start image that the backup holds of its terminal. A message of changes has that start image
/// beside it, and they fit it (docs/design/ARCHITECTURE.md).
#[derive(Debug, Drop)]
pub struct LinkTask {
    /// The number of the terminal.
    pub terminal: u32,
    pub message: Carried,
    /// The start image that is held of the terminal, if there is one.
    pub held: Option<Bytes>,
}

impl Model for LinkTask {
    ghost use Rattle.std.specs.Prelude.{◌≡◌, true};
    ghost use Rattle.pw_pair.specs.Bodies.{fits_held};
    ghost use Rattle.pw_pair.specs.SeenTask.{SeenTask};

    ghost Value = { SeenTask };

    ghost view = { λ task. record {
      terminal = task.terminal;
      message = task.message;
      held = task.held;
    } };

    ghost invariant = { λ task. fits_held task.held task.message.body ≡ true };
}

/// A task that is done: the task, and the whole image that its message stands for.
#[derive(Debug, Drop)]
pub struct LinkDone {
    pub task: LinkTask,
    pub image: Bytes,
}

impl Model for LinkDone {
    ghost use Rattle.std.specs.Prelude.{◌≡◌};
    ghost use Rattle.pw_pair.specs.SeenTask.{SeenDone};

    ghost Value = { SeenDone };

    ghost use Rattle.pw_pair.specs.Tasks.{image_for};

    ghost view = { λ done. record { task = done.task; image = done.image } };

    ghost invariant = { λ done. done.image ≡ image_for done.task };
}

impl LinkDone {
    /// The number of the terminal.
    pub fn terminal(&self) -> u32
        ensures { result ≡ self.now.task.terminal }
    {
        self.task.terminal
    }
}

/// Builds the whole image that the message of a task stands for. It costs the bytes of that image;
/// for want of memory the task is spent.
pub fn build(alloc: Global, task: LinkTask) -> Result<LinkDone, Memory>
    ensures { IfOk result (λ done. done
        ≡ record { task = task; image = image_in task.held task.message.body }) }
{
    let image = whole(alloc, task.held.as_ref(), &task.message.body)?;
    Ok(LinkDone { task, image })
}

/// The whole image that a body stands for, over the start image that is held.
pub fn whole(alloc: Global, start: Option<&Bytes>, body: &Body) -> Result<Bytes, Memory>
    requires { fits_held (option_copied start) body.now ≡ true }
    ensures { IfOk result (λ image. image ≡ image_in (option_copied start.entry) body.now) }
{
    match (body, start) {
        (Body::Whole(image), _) => image.copy(alloc),
        (Body::Delta(changes), Some(start)) => patch(alloc, start.as_slice(), changes),
        (Body::Delta(_), None) => unreachable!(),
    }
}
