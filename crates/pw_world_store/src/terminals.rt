//! What entries do to terminals alone.

ghost use Rattle.std.specs.Prelude.{◌≡◌, ◌<◌, All, length};
ghost use Rattle.pw_world_store.specs.Calls.{before_verb, pended};
ghost use Rattle.pw_world_store.specs.Each.{with_ending};
ghost use Rattle.pw_world_store.specs.Keeps.{IsChanged, kept_in};
ghost use Rattle.pw_world_state.specs.Asked.{verb_in};
ghost use Rattle.pw_world_state.specs.Changes.{at_each, at_terminal, kept_ran, kept_show, without_path};

use crate::each::lose_paths;
use crate::keep::Keep;
use pw_code::context::Context;
use pw_code::verb::Verb;
use pw_event::event::{Cause, Ending};
use pw_tmf::disc::Disc;

impl<D: Disc> Keep<D> {
    /// No entry: the terminal's program has run on to its next verb.
    pub fn run_on(&mut self, terminal: u32, verb: Verb, context: Context)
        requires known { terminal < length self.old.system.terminals }
        requires verb { verb ≡ verb_in self.old.system context }
        ensures { IsChanged D.told (kept_ran terminal context) self.old self.new }
    {
        self.seats[terminal as usize].run_on(verb, context);
    }

    /// No entry: the terminal's program stands at its last answer again. The context with which it stood at its
    /// verb leaves, None exactly where it stood at none.
    pub fn leave_verb(&mut self, terminal: u32) -> Option<Context>
        requires { terminal < length self.old.system.terminals }
        ensures context { result ≡ ((kept_in D.told self.old).terminals terminal).ready }
        ensures left { IsChanged D.told (at_terminal terminal before_verb) self.old self.new }
    {
        self.seats[terminal as usize].leave_verb()
    }

    /// SHOW, KEY and AGAIN: the terminal's program goes on with this context, which has one answer
    /// more.
    pub fn answer(&mut self, terminal: u32, context: Context)
        requires { terminal < length self.old.system.terminals }
        ensures { IsChanged D.told (kept_show terminal context) self.old self.new }
    {
        self.seats[terminal as usize].answer(context);
    }

    /// A cause is pending for a terminal.
    pub(crate) fn pend(&mut self, terminal: u32, cause: Cause)
        requires known { terminal < length self.old.system.terminals }
        ensures { IsChanged D.told (at_terminal terminal (pended cause)) self.old self.new }
    {
        self.seats[terminal as usize].pending = Some(cause);
    }

    /// A terminal has this ending.
    pub(crate) fn close(&mut self, terminal: u32, ending: Ending)
        requires known { terminal < length self.old.system.terminals }
        ensures { IsChanged D.told (at_terminal terminal (with_ending ending)) self.old self.new }
    {
        self.seats[terminal as usize].end(ending);
    }

    /// The paths of these terminals are gone.
    pub(crate) fn lose_paths(&mut self, terminals: &[u32])
        requires known { All (λ t. t < length self.old.system.terminals) terminals.now }
        ensures { IsChanged D.told (at_each terminals.now (λ t. without_path)) self.old self.new }
    {
        lose_paths(&mut self.seats, terminals);
    }
}
