//! The contexts of which an entry compares or sends images have numbers and characters of their types.
//! These calls do nothing: they show it to whoever speaks of images.

ghost use Rattle.std.specs.Prelude.{◌≡◌, ◌<◌, Some, length};
ghost use Rattle.std.specs.Option.{IfSome};
ghost use Rattle.pw_code.specs.declared.context.Context.{Context};
ghost use Rattle.pw_image.specs.Values.{HasValues};
ghost use Rattle.pw_world_store.specs.Keeps.{kept_in};
ghost use Rattle.pw_world_state.specs.Entered.{copied};
ghost use Rattle.pw_world_state.specs.May.{IsThere};
ghost use Rattle.pw_world_state.specs.Read.{AreValued, ClosedValues, OwnValues};
ghost use Rattle.pw_world_model.specs.Actors.{IsActor};
ghost use Rattle.pw_world.specs.OwnValues.{HasOwnValues, TerminalHasValues};

use crate::values::know_values;
use crate::world::World;
use pw_actor_queue::actor::Actor;
use pw_code::context::Context;
use pw_event::event::Event;
use pw_tmf::disc::Disc;
use pw_world_model::contexts::context_laws;
use pw_world_store::seat::Ready;

impl<D: Disc> World<D> {
    /// Shows the contexts of which an entry compares or sends images.
    pub fn know_entry(&self, entry: &Event)
        requires { IsThere self.now.keep.system entry.now }
        ensures { AreValued self.now.keep.system (kept_in D.told self.now.keep) entry.now }
    {
        match *entry {
            Event::CheckStart { terminal } => self.know_own(terminal),
            Event::Begin { terminal, .. } => self.know_own(terminal),
            Event::CheckCopy { terminal } => self.know_copied(terminal),
            Event::CheckEnd { terminal }
            | Event::Commit { terminal, .. }
            | Event::Back { terminal, .. } => self.know_closed(terminal),
            _ => {}
        }
    }

    /// Shows the contexts of an actor at its last answer and at its verb.
    pub(crate) fn know_actor(&self, actor: Actor)
        requires { IsActor self.now.keep.system actor }
        ensures { HasOwnValues (kept_in D.told self.now.keep) actor }
    {
        if let Actor::Terminal(terminal) = actor {
            self.know_terminal(terminal);
        }
    }

    /// Shows the contexts of a terminal at its last answer and at its verb.
    fn know_terminal(&self, terminal: u32)
        requires { terminal < length self.now.keep.system.terminals }
        ensures { TerminalHasValues ((kept_in D.told self.now.keep).terminals terminal) }
    {
        let seat = self.keep.seat(terminal);
        know_if_any(&seat.context);
        know_if_ready(&seat.ready);
    }

    /// Shows the context of a terminal at its last answer.
    fn know_own(&self, terminal: u32)
        requires { terminal < length self.now.keep.system.terminals }
        ensures { OwnValues (kept_in D.told self.now.keep) terminal }
    {
        know_if_any(&self.keep.seat(terminal).context);
    }

    /// Shows the context of a terminal that a CHECK COPY sends.
    fn know_copied(&self, terminal: u32)
        requires { terminal < length self.now.keep.system.terminals }
        ensures { (context : Context)
            → copied ((kept_in D.told self.now.keep).terminals terminal).start
            ((kept_in D.told self.now.keep).terminals terminal).context ≡ Some context
            → HasValues context }
    {
        let seat = self.keep.seat(terminal);
        know_if_any(&seat.start);
        know_if_any(&seat.context);
    }

    /// Shows the context of a terminal behind the answer that ends a transaction at its verb.
    fn know_closed(&self, terminal: u32)
        requires { terminal < length self.now.keep.system.terminals }
        ensures { ClosedValues self.now.keep.system (kept_in D.told self.now.keep) terminal }
    {
        context_laws();
        know_if_ready(&self.keep.seat(terminal).ready);
    }
}

/// Shows a context, if there is one.
fn know_if_any(context: &Option<Context>)
    ensures { IfSome context.now HasValues }
{
    if let Some(context) = context {
        know_values(context);
    }
}

/// Shows the context of a program that has run on, if it has.
fn know_if_ready(ready: &Option<Ready>)
    ensures { IfSome ready.now (λ at. HasValues at.context) }
{
    if let Some(ready) = ready {
        know_values(&ready.context);
    }
}
