//! What a world tells of what a status text counts. None of these calls changes anything, and none takes
//! memory.

ghost use Rattle.std.specs.Prelude.{◌≡◌, ◌<◌, length};
ghost use Rattle.std.specs.Option.{option_map};
ghost use Rattle.pw_world.specs.States.{seen};
ghost use Rattle.pw_world_model.specs.Seen.{state_of};
ghost use Rattle.pw_onecopy.specs.Path.{is_outside};
ghost use Rattle.pw_paired.specs.State.{Job};
ghost use Rattle.pw_paired.specs.Terminal.{path_of};

use crate::world::World;
use pw_event::event::Ending;
use pw_tmf::disc::Disc;
use pw_world_model::contexts::context_laws;

impl<D: Disc> World<D> {
    /// The ending of a terminal, None exactly where it has none yet.
    pub fn ending(&self, terminal: u32) -> Option<Ending>
        requires { terminal < length self.now.keep.system.terminals }
        ensures { result ≡ ((state_of (seen D.told self.now)).terms terminal).ending }
    {
        self.keep.seat(terminal).ending
    }

    /// Whether the path of a terminal is in no transaction.
    pub fn is_outside(&self, terminal: u32) -> bool
        requires { terminal < length self.now.keep.system.terminals }
        ensures { result ≡ is_outside (path_of (state_of (seen D.told self.now)) terminal) }
    {
        context_laws();
        match &self.keep.seat(terminal).context {
            Some(context) => !context.in_unit,
            None => true,
        }
    }

    /// The terminal for which a process works, None exactly where it is free or not there.
    pub fn worker(&self, class: u32, process: u32) -> Option<u32>
        requires { class < length self.now.keep.system.classes }
        ensures { result ≡ option_map (λ (job : Job). job.request.terminal)
            (((state_of (seen D.told self.now)).classes class).busy process) }
    {
        match self.keep.request(class, process) {
            Some(request) => Some(request.terminal),
            None => None,
        }
    }

    /// How many requests wait for a class.
    pub fn waiting(&self, class: u32) -> usize
        requires { class < length self.now.keep.system.classes }
        ensures { result ≡ length ((state_of (seen D.told self.now)).classes class).waiting }
    {
        self.keep.waiting(class)
    }
}
