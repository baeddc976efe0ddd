ghost use Rattle.std.specs.Prelude.{◌≡◌, ◌+◌, IfOk, IsSome, None, Some};
ghost use Rattle.std.specs.Option.{ForNone, ForSome, is_some};
ghost use Rattle.pw_link.specs.Lanes.{IsOn, backup_lane, message_number, primary_lane, sent_count, taken_count};
ghost use Rattle.pw_workers.specs.Lanes.{waiting_in};

use pw_base::memory::Memory;
use pw_link::{BackupEnd, PrimaryEnd, Receipt, lane};
use pw_pair::link::{LinkDone, LinkTask, build};
use std::alloc::Global;
use std::mem;
use std::sync::Wait;

/// The lane of a pair, on which the work of building images goes from its primary to its backup: both
/// ends, and the receipt of a task that is not taken yet. Contracts see this task.
#[derive(Drop)]
pub struct LinkLane {
    primary: PrimaryEnd<LinkTask>,
    backup: BackupEnd<LinkTask>,
    waiting: Option<Receipt<LinkTask>>,
    ghost one: { backup_lane backup ≡ primary_lane primary },
    ghost next: { ForSome waiting (λ receipt. IsOn receipt (primary_lane primary)
        × (message_number receipt ≡ taken_count backup)
        × (sent_count primary ≡ taken_count backup + 1)) },
    ghost idle: { ForNone waiting (sent_count primary ≡ taken_count backup) },
}

impl LinkLane {
    /// A lane on which nothing was sent.
    pub fn new(alloc: Global) -> Result<LinkLane, Memory>
        ensures { IfOk result (λ lane. lane.waiting ≡ None) }
    {
        let (primary, backup) = lane(alloc)?;
        Ok(LinkLane {
            primary,
            backup,
            waiting: None,
        })
    }

    /// Whether a task waits to be taken.
    pub fn is_waiting(&self) -> bool
        ensures { result ≡ is_some self.now.waiting }
    {
        self.waiting.is_some()
    }

    /// Sends a task, where none waits.
    pub fn send<R: Wait>(&mut self, rt: &R, task: LinkTask)
        requires { self.old.waiting ≡ None }
        ensures { waiting_in self.new.waiting ≡ Some task }
    {
        self.waiting = Some(self.primary.send(rt, task));
    }

    /// Takes the task that waits.
    pub fn take<R: Wait>(&mut self, rt: &R) -> LinkTask
        requires { IsSome self.old.waiting }
        ensures task { waiting_in self.old.waiting ≡ Some result }
        ensures none { self.new.waiting ≡ None }
    {
        match mem::take(&mut self.waiting) {
            Some(receipt) => self.backup.take(rt, receipt),
            None => unreachable!(),
        }
    }

    /// Takes the task that waits and builds its image. For want of memory the task is spent.
    pub fn build<R: Wait>(&mut self, rt: &R, alloc: Global) -> Result<LinkDone, Memory>
        requires { IsSome self.old.waiting }
        ensures task { IfOk result (λ done. waiting_in self.old.waiting ≡ Some done.task) }
        ensures none { self.new.waiting ≡ None }
    {
        let task = self.take(rt);
        build(alloc, task)
    }
}
