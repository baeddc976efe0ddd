ghost use Rattle.std.specs.Prelude.{◌≡◌, ◌-◌, ◌≤◌, Some, slice_get};
ghost use Rattle.pw_world.specs.Owners.{fail_entry};

use pw_actor_queue::actor::Actor;
use pw_event::event::Event;
use pw_event::script::{FailLine, Script};

/// The FAIL entry of the failure line of this number, where it is a step of the actor.
pub fn fail_entry(script: &Script, number: u32, actor: Actor) -> Option<Event>
    requires { 1 ≤ number }
    ensures { result ≡ fail_entry number (slice_get script.now.lines (number - 1)) actor }
{
    let line = script.lines.as_slice().get(number as usize - 1)?;
    entry_of(number, line, actor)
}

/// The FAIL entry of a failure line, where it is a step of the actor.
fn entry_of(number: u32, line: &FailLine, actor: Actor) -> Option<Event>
    ensures { result ≡ fail_entry number (Some line.now) actor }
{
    match (*line, actor) {
        (FailLine::Tcp { tcp, primary, .. }, Actor::Pair(pair)) if tcp == pair => {
            Some(Event::FailTcp {
                tcp,
                primary,
                line: number,
            })
        }
        (FailLine::Server { class, process, .. }, Actor::Class(own)) if class == own => {
            Some(Event::FailServer {
                class,
                process,
                line: number,
            })
        }
        _ => None,
    }
}
