ghost use Rattle.std.specs.Prelude.{◌≡◌, ◌+◌, ◌-◌, ◌∷◌, ◌≤◌, ◌<◌, ◌^◌, length, IfErr, IfOk, Ok};
ghost use Rattle.pw_base.specs.Limits.{longest_input};
ghost use Rattle.pw_net.specs.World.{first_world};
ghost use Rattle.pw_sections.specs.Lines.{lines};
ghost use Rattle.pw_expand.specs.Events.{event_in};
ghost use Rattle.pw_expand.specs.Schedule.{schedule_begun, events_from, most_events, schedule_from, schedule_of, systems_in};
ghost use Rattle.pw_expand.specs.Systems.{SchedulePlaysTo, ScheduleGoesOn, HasBegun, IsFaultOf, PlaysTo, NetStepsTo, played, schedule_played, world_of};

use crate::fault::ScheduleFault;
use crate::line::{event_in, systems_in};
use crate::systems::Systems;
use pw_base::read_all::MAX_INPUT;
use pw_sections::line::next_line;
use pw_sections::word::is_blank;
use std::alloc::Global;

/// The most lines of events.
const MAX_EVENTS: u32 = 10_000;

/// Does the event that a line names.
fn play_event(
    alloc: Global,
    world: &mut Systems,
    systems: u32,
    number: u32,
    line: &[u8],
) -> Result<(), ScheduleFault>
    requires { HasBegun 4294967294 (world_of world.old.members.entries world.old.sent.items) }
    ensures { NetStepsTo result (world_of world.old.members.entries world.old.sent.items)
        (world_of world.new.members.entries world.new.sent.items) number (event_in systems line.now) }
{
    let Some(event) = event_in(alloc, systems, line)? else {
        return Err(ScheduleFault::At { line: number });
    };
    world.take(&event)?;
    Ok(())
}

/// Does what a line says, where so many lines of events may still come. It gives how many may come
/// behind it.
fn play_line(
    alloc: Global,
    world: &mut Systems,
    systems: u32,
    number: u32,
    left: u32,
    line: &[u8],
) -> Result<u32, ScheduleFault>
    requires few { left ≤ most_events }
    requires begun { HasBegun (most_events - left) (world_of world.old.members.entries world.old.sent.items) }
    ensures goes_on { ScheduleGoesOn result (world_of world.new.members.entries world.new.sent.items) systems number
        (λ rest. played (world_of world.old.members.entries world.old.sent.items)
        (events_from systems number left (line.now ∷ rest))) }
    ensures few { IfOk result (λ left. left ≤ most_events) }
    ensures begun { IfOk result (λ left.
        HasBegun (most_events - left) (world_of world.new.members.entries world.new.sent.items)) }
{
    if is_blank(line) {
        return Ok(left);
    }
    if left == 0 {
        return Err(ScheduleFault::At { line: number });
    }
    play_event(alloc, world, systems, number, line)?;
    Ok(left - 1)
}

/// Does the events of lines, of which the first has a number.
fn play_events(
    alloc: Global,
    world: &mut Systems,
    systems: u32,
    first_line: u32,
    text: &[u8],
) -> Result<(), ScheduleFault>
    requires numbers { first_line + length text.now < 2 ^ 32 }
    requires begun { HasBegun 0 (world_of world.old.members.entries world.old.sent.items) }
    ensures { SchedulePlaysTo result (world_of world.new.members.entries world.new.sent.items)
        (played (world_of world.old.members.entries world.old.sent.items)
        (events_from systems first_line most_events (lines text.now))) }
{
    let mut number = first_line;
    let mut left = MAX_EVENTS;
    let mut rest = text;
    while let Some((line, behind)) = next_line(rest) {
        left = play_line(alloc, world, systems, number, left, line)?;
        number += 1;
        rest = behind;
    }
    Ok(())
}

/// Takes the first line, which has a number, and then the events behind it. It gives how many
/// systems there are.
fn play_from(
    alloc: Global,
    world: &mut Systems,
    number: u32,
    line: &[u8],
    behind: &[u8],
) -> Result<u32, ScheduleFault>
    requires numbers { number + 1 + length behind.now < 2 ^ 32 }
    requires begun { HasBegun 0 (world_of world.old.members.entries world.old.sent.items) }
    ensures { PlaysTo result (world_of world.new.members.entries world.new.sent.items)
        (schedule_played (world_of world.old.members.entries world.old.sent.items)
        (schedule_begun number (systems_in line.now) (lines behind.now))) }
{
    let Some(systems) = systems_in(alloc, line)? else {
        return Err(ScheduleFault::At { line: number });
    };
    play_events(alloc, world, systems, number + 1, behind)?;
    Ok(systems)
}

/// Does the events of the schedule that a text of at most 16 MiB is (docs/design/SYSTEMS.md). It gives how
/// many systems there are, and refuses exactly with the line of the schedule's first fault.
fn play(alloc: Global, world: &mut Systems, text: &[u8]) -> Result<u32, ScheduleFault>
    requires few { length text.now ≤ longest_input }
    requires begun { HasBegun 0 (world_of world.old.members.entries world.old.sent.items) }
    ensures { PlaysTo result (world_of world.new.members.entries world.new.sent.items)
        (schedule_played (world_of world.old.members.entries world.old.sent.items)
        (schedule_from 1 (lines text.now))) }
{
    let mut number = 1;
    let mut rest = text;
    while let Some((line, behind)) = next_line(rest) {
        if !is_blank(line) {
            return play_from(alloc, world, number, line, behind);
        }
        number += 1;
        rest = behind;
    }
    Err(ScheduleFault::At { line: number })
}

/// The net world of a schedule, and how many systems it has (docs/design/SYSTEMS.md). It refuses exactly
/// with the line of the schedule's first fault, which is 0 for an input over the limit.
pub fn play_schedule(alloc: Global, bytes: &[u8]) -> Result<(u32, Systems), ScheduleFault>
    ensures ok { IfOk result (λ shown. schedule_played first_world (schedule_of bytes.now)
        ≡ Ok (shown.0, world_of shown.1.members.entries shown.1.sent.items)) }
    ensures err { IfErr result (λ fault. IsFaultOf fault (schedule_played first_world (schedule_of bytes.now))) }
{
    if bytes.len() > MAX_INPUT {
        return Err(ScheduleFault::At { line: 0 });
    }
    let mut world = Systems::new(alloc);
    let systems = play(alloc, &mut world, bytes)?;
    Ok((systems, world))
}
