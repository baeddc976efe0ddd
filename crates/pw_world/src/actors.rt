ghost use Rattle.std.specs.Prelude.{◌≡◌, ◌<◌, ◌↔◌, IsTrue, List, length, slice_get};
ghost use Rattle.pw_event.specs.Due.{owner_of};
ghost use Rattle.pw_event.specs.declared.script.FailLine.{FailLine as SeenLine};
ghost use Rattle.pw_code_meaning.specs.OfSystem.{behaviour, processes_by};
ghost use Rattle.pw_world_state.specs.Entered.{tcp_of};
ghost use Rattle.pw_world_state.specs.May.{IsThere};
ghost use Rattle.pw_world.specs.Owners.{owner_in};
ghost use Rattle.pw_world_model.specs.Actors.{IsActor, actor_of};

use pw_actor_queue::actor::Actor;
use pw_code::system::System;
use pw_event::due;
use pw_event::event::Event;
use pw_event::script::Owner;

/// Whether an actor is one of the system.
pub fn is_actor(system: &System, actor: Actor) -> bool
    ensures { IsTrue result ↔ IsActor system.now actor }
{
    match actor {
        Actor::Terminal(terminal) => (terminal as usize) < system.terminals.len(),
        Actor::Process { class, process } => 1 <= process && process <= processes_of(system, class),
        Actor::Pair(tcp) => (tcp as usize) < system.tcps.len(),
        Actor::Class(class) => (class as usize) < system.classes.len(),
    }
}

/// How many processes a class has, 0 for one that is not there.
pub fn processes_of(system: &System, class: u32) -> u32
    ensures { result ≡ processes_by (slice_get system.now.classes class) }
{
    match system.classes.as_slice().get(class as usize) {
        Some(info) => info.processes,
        None => 0,
    }
}

/// The pair of a terminal, 0 for one that is not there.
pub fn tcp_of(system: &System, terminal: u32) -> u32
    ensures { result ≡ tcp_of system.now terminal }
{
    match system.terminals.as_slice().get(terminal as usize) {
        Some(info) => info.tcp,
        None => 0,
    }
}

/// Whom the entries of an actor belong to.
pub fn owner_of_actor(system: &System, actor: Actor) -> Owner
    ensures { result ≡ owner_in system.now actor }
{
    match actor {
        Actor::Terminal(terminal) => Owner::Tcp(tcp_of(system, terminal)),
        Actor::Pair(tcp) => Owner::Tcp(tcp),
        Actor::Process { class, .. } | Actor::Class(class) => Owner::Class(class),
    }
}

/// Whom an entry belongs to.
pub fn owner_of(system: &System, event: &Event) -> Owner
    ensures { result ≡ owner_of (tcp_of system.now) event.now }
{
    due::owner_of(system, event)
}

/// Whose step an entry is.
pub fn actor_of(system: &System, event: &Event) -> Actor
    ensures { (script : List SeenLine) → result ≡ actor_of (behaviour script system.now) event.now }
{
    match *event {
        Event::Take { class, .. } | Event::FailServer { class, .. } => Actor::Class(class),
        Event::File { class, process, .. } | Event::Reply { class, process, .. } => {
            Actor::Process { class, process }
        }
        Event::FailTcp { tcp, .. } | Event::Takeover { tcp } | Event::Raise { tcp } => {
            Actor::Pair(tcp)
        }
        Event::CheckCopy { terminal } | Event::Applied { terminal } => {
            Actor::Pair(tcp_of(system, terminal))
        }
        Event::Show { terminal, .. }
        | Event::Key { terminal, .. }
        | Event::CheckStart { terminal }
        | Event::CheckEnd { terminal }
        | Event::Begin { terminal, .. }
        | Event::Send { terminal, .. }
        | Event::Again { terminal, .. }
        | Event::Commit { terminal, .. }
        | Event::Back { terminal, .. }
        | Event::Restart { terminal, .. }
        | Event::End { terminal, .. } => Actor::Terminal(terminal),
    }
}
