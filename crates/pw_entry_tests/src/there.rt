ghost use Rattle.std.specs.Prelude.{◌↔◌, ◌<◌, ◌≤◌, IsTrue, length, slice_get};
ghost use Rattle.pw_code_meaning.specs.OfSystem.{processes_by};
ghost use Rattle.pw_world_state.specs.May.{IsProcessOf, IsThere};

use pw_code::system::System;
use pw_event::event::Event;

/// Whether the terminal, pair, class or process that an entry names is one of the system.
pub fn is_there(system: &System, entry: &Event) -> bool
    ensures { IsTrue result ↔ IsThere system.now entry.now }
{
    match *entry {
        Event::Show { terminal, .. }
        | Event::Key { terminal, .. }
        | Event::CheckStart { terminal }
        | Event::CheckEnd { terminal }
        | Event::CheckCopy { terminal }
        | Event::Applied { terminal }
        | Event::Begin { terminal, .. }
        | Event::Send { terminal, .. }
        | Event::Again { terminal, .. }
        | Event::Commit { terminal, .. }
        | Event::Back { terminal, .. }
        | Event::Restart { terminal, .. }
        | Event::End { terminal, .. } => (terminal as usize) < system.terminals.len(),
        Event::FailTcp { tcp, .. } | Event::Takeover { tcp } | Event::Raise { tcp } => {
            (tcp as usize) < system.tcps.len()
        }
        Event::Take { class, .. } => (class as usize) < system.classes.len(),
        Event::File { class, process, .. }
        | Event::Reply { class, process, .. }
        | Event::FailServer { class, process, .. } => is_process(system, class, process),
    }
}

/// Whether a class has a process of this number.
fn is_process(system: &System, class: u32, process: u32) -> bool
    ensures { IsTrue result ↔ IsProcessOf system.now class process }
{
    match system.classes.get(class as usize) {
        Some(info) => 1 <= process && process <= info.processes,
        None => false,
    }
}
