//! `enter`: one given entry.

ghost use Rattle.std.specs.Prelude.{◌≡◌, ◌↔◌, ◌<◌, IfOk, IsTrue, OnOk, length};
ghost use Rattle.pw_world_model.specs.Between.{KeepsWork};
ghost use Rattle.pw_world_store.specs.Keeps.{kept_in};
ghost use Rattle.pw_world_state.specs.May.{IsThere};
ghost use Rattle.pw_world_state.specs.Read.{IsEntryRead};
ghost use Rattle.pw_world.specs.Entering.{MayCome, older_by, older_in};
ghost use Rattle.pw_world.specs.Running.{HasRunOn, IsWorkRead};
ghost use Rattle.pw_world.specs.States.{seen};
ghost use Rattle.pw_world_model.specs.Answers.{EnterComes, LeavesEntered};
ghost use Rattle.pw_world_model.specs.Pushed.{CanPush};
ghost use Rattle.pw_world_model.specs.Seen.{state_of, sys_of};
ghost use Rattle.pw_paired.specs.Step.{Legal, line_due, line_wanted};

use crate::actors::{actor_of, owner_of};
use crate::world::World;
use pw_actor_queue::actor::Actor;
use pw_base::memory::Memory;
use pw_class::request::RequestPlace;
use pw_entry_tests::may::may;
use pw_entry_tests::there::is_there;
use pw_event::event::{Cause, Ending, Event};
use pw_tmf::answer::DiscFault;
use pw_tmf::disc::Disc;
use pw_world_model::answers::Entered;

impl<D: Disc> World<D> {
    /// Enters an entry, if it is a step. It runs the programs on of which the entry speaks. Every
    /// answer but `Done` leaves the log and the paired state as they were.
    pub fn enter(&mut self, event: &Event) -> Entered
        requires { length self.old.ledger.log < self.old.limit }
        ensures comes { EnterComes (seen D.told self.old) event.now result }
        ensures leaves { LeavesEntered (seen D.told self.old) event.now result (seen D.told self.new) }
        ensures works { KeepsWork (seen D.told self.old) (seen D.told self.new) }
    {
        if self.failed {
            return Entered::DiscFault;
        }
        match self.is_step(event) {
            Ok(true) => {}
            Ok(false) => return Entered::NotAStep,
            Err(_) => return Entered::Memory,
        }
        self.holds();
        match self.push(event) {
            Ok(()) => Entered::Done,
            Err(DiscFault::Failed) => Entered::DiscFault,
            Err(DiscFault::Memory) => Entered::Memory,
        }
    }

    /// Whether an entry is a step, for which the programs run on of which it speaks. Then it can be
    /// pushed.
    fn is_step(&mut self, event: &Event) -> Result<bool, Memory>
        requires { length self.old.ledger.log < self.old.limit }
        ensures ran { HasRunOn (seen D.told self.old) (seen D.told self.new) }
        ensures exact { IfOk result (λ step. IsTrue step
            ↔ Legal (sys_of (seen D.told self.old)) (state_of (seen D.told self.old)) event.now) }
        ensures can { IfOk result (λ step. IsTrue step → CanPush (seen D.told self.new) event.now) }
    {
        if !self.may_come(event) {
            return Ok(false);
        }
        self.read_for(event)?;
        self.passes(event)
    }

    /// Whether an entry names what is there, the log is not finished, and the failure line that is due
    /// is its own.
    fn may_come(&self, event: &Event) -> bool
        ensures comes { IsTrue result ↔ MayCome (seen D.told self.now) event.now }
        ensures must { Legal (sys_of (seen D.told self.now)) (state_of (seen D.told self.now)) event.now
            → IsTrue result }
    {
        is_there(self.keep.system(), event) && !self.finished() && self.is_due(event)
    }

    /// Whether the failure line that is due is an entry's own: none for any but a FAIL entry.
    fn is_due(&self, event: &Event) -> bool
        requires { IsThere self.now.keep.system event.now }
        ensures { IsTrue result
            ↔ (line_due (sys_of (seen D.told self.now)) (state_of (seen D.told self.now)) event.now
            ≡ line_wanted event.now) }
    {
        self.ledger.due(owner_of(self.keep.system(), event)) == line_wanted(event)
    }

    /// Whether an entry that may come is a step, by its test. The programs of which it speaks stand at
    /// their verbs.
    fn passes(&self, event: &Event) -> Result<bool, Memory>
        requires comes { MayCome (seen D.told self.now) event.now }
        requires room { length self.now.ledger.log < self.now.limit }
        requires read { IsEntryRead self.now.keep.system (kept_in D.told self.now.keep) event.now }
        ensures exact { IfOk result (λ step. IsTrue step
            ↔ Legal (sys_of (seen D.told self.now)) (state_of (seen D.told self.now)) event.now) }
        ensures can { IfOk result (λ step. IsTrue step → CanPush (seen D.told self.now) event.now) }
    {
        self.know_entry(event);
        self.keep.known_parts();
        may(&self.keep, self.script.lines.as_slice(), event)
    }

    /// The programs of which an entry speaks run on: those of the servers for the two units of a cause
    /// OLDER, and that of its actor for any other entry.
    fn read_for(&mut self, event: &Event) -> Result<(), Memory>
        requires { IsThere self.old.keep.system event.now }
        ensures ran { HasRunOn (seen D.told self.old) (seen D.told self.new) }
        ensures read { OnOk result
            (IsEntryRead self.new.keep.system (kept_in D.told self.new.keep) event.now) }
    {
        match older_in(event) {
            Some((terminal, other)) => {
                self.read_server(terminal)?;
                self.read_server(other)
            }
            None => {
                let actor = actor_of(self.keep.system(), event);
                self.read(actor)?;
                self.holds();
                Ok(())
            }
        }
    }

    /// The server that works for a terminal, if one does, runs on.
    fn read_server(&mut self, terminal: u32) -> Result<(), Memory>
        ensures ran { HasRunOn (seen D.told self.old) (seen D.told self.new) }
        ensures read { OnOk result
            (IsWorkRead self.new.keep.system (kept_in D.told self.new.keep) terminal) }
    {
        self.keep.known_parts();
        match self.keep.request_of(terminal) {
            Some(RequestPlace::Busy { class, process }) => self.read(Actor::Process {
                class,
                process,
            }),
            Some(RequestPlace::Waiting { .. }) => Ok(()),
            None => Ok(()),
        }
    }
}

/// The failure line that must be due for an entry: its own for a FAIL entry, none for any other one.
fn line_wanted(event: &Event) -> Option<u32>
    ensures { result ≡ line_wanted event.now }
{
    match *event {
        Event::FailTcp { line, .. } | Event::FailServer { line, .. } => Some(line),
        _ => None,
    }
}

/// The terminals of the two units of which the cause OLDER of an entry speaks, its own first.
fn older_in(event: &Event) -> Option<(u32, u32)>
    ensures { result ≡ older_in event.now }
{
    match *event {
        Event::Restart {
            terminal,
            cause,
            ..
        } => older_by(terminal, cause),
        Event::End {
            terminal,
            ending: Ending::Suspended(cause),
        } => older_by(terminal, cause),
        _ => None,
    }
}

/// The terminals of the two units of which a cause OLDER for this terminal speaks.
fn older_by(terminal: u32, cause: Cause) -> Option<(u32, u32)>
    ensures { result ≡ older_by terminal cause }
{
    match cause {
        Cause::Older {
            terminal: other,
            ..
        } => Some((terminal, other)),
        _ => None,
    }
}
