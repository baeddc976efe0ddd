//! Scenes of a world on one thread: each task is run and each image built where it comes.

ghost use Rattle.pw_code.specs.Valid.{IsValid};

mod decks;
mod gates;
mod opening;
mod reports;
mod rounds;
mod runs;

use opening::{OpenedDeck, open};
use pw_actor_queue::actor::Actor;
use pw_code::system::System;
use pw_event::event::Event;
use pw_event::fail_line::read_fail;
use pw_event::reading::read_event;
use pw_event::script::FailLine;
use pw_report::taken::report_of;
use pw_tmf::faulty::Faulty;
use pw_tmf::tmf::Tmf;
use pw_world::replay::MAX_ENTRIES;
use pw_world::task::run_task;
use pw_world::world::World;
use pw_world_model::answers::Applied;
use pw_world_model::task::Task;
use rounds::{Stop, build_image, go_round, work_on};
use std::alloc::Global;
use std::test::Fail;

/// A new world of a deck.
fn world_of(alloc: Global, bytes: &[u8]) -> Result<World<Faulty<Tmf>>, Fail> {
    let OpenedDeck { setup, disc } = open(alloc, bytes, &[])?;
    let (system, script) = setup.into_parts();
    Ok(World::new(alloc, system, script, disc, MAX_ENTRIES)?)
}

/// A program that stands at an answer has to run on first.
#[test]
fn unrun_outcome(rt: HostRuntime) -> Result<(), Fail> {
    let mut world = world_of(rt.alloc(), decks::HELLO)?;
    let terminals = world.system().terminals.len();
    if terminals == 0 {
        world.into_disc();
        return Err(Fail::new("HELLO has no terminal"));
    }
    let task = Task {
        actor: Actor::Terminal(0),
        stamp: 0,
        work: None,
    };
    let outcome = run_task(world.system(), task).expect(&rt, "memory");
    assert_eq!(rt; world.apply(outcome), Applied::Unrun);
    assert_eq!(rt; world.log().len(), 0);
    world.into_disc();
    Ok(())
}

/// The log that waits for the image of its CHECK.
const RAISED: &[Event] = &[Event::Raise { tcp: 0 }, Event::CheckCopy { terminal: 0 }];

/// The failure line of a backup.
const FAILURE: FailLine = FailLine::Tcp {
    tcp: 0,
    primary: false,
    after: 7,
};

/// Whether one line of a log and one failure line are read.
fn are_lines_read(alloc: Global, system: &System) -> bool
    requires { IsValid system.now }
{
    let raise = read_event(alloc, system, b"RAISE TCP-1");
    let failure = read_fail(alloc, system, b"TCP TCP-1 BACKUP AFTER 7");
    matches!(raise, Ok(Event::Raise { tcp: 0 })) && matches!(failure, Ok(line) if line == FAILURE)
}

/// An image is built outside the world, between two rounds.
#[test]
fn unbuilt_until_given_back(rt: HostRuntime) -> Result<(), Fail> {
    let mut world = world_of(rt.alloc(), decks::HELLO)?;
    assert!(rt; are_lines_read(rt.alloc(), world.system()));
    for _ in 0..2 {
        let stop = go_round(&mut world);
        assert_eq!(rt; stop, Stop::Answered(Applied::Unbuilt));
        assert_eq!(rt; world.log(), RAISED);
    }
    assert!(rt; build_image(rt.alloc(), &mut world));
    assert_eq!(rt; go_round(&mut world), Stop::Finished);
    let text = report_of(rt.alloc(), world)?;
    assert_eq!(rt; text.as_slice(), reports::HELLO);
    Ok(())
}

/// A world that is worked in one call a step has the report of one whose tasks are handed out.
#[test]
fn worked_at_once(rt: HostRuntime) -> Result<(), Fail> {
    let stocks = decks::stocks(rt.alloc(), b"", decks::OPEN_UNIT)?;
    let scenes = [
        (decks::HELLO, reports::HELLO),
        (stocks.as_slice(), reports::OPEN_UNIT),
    ];
    for (deck, report) in scenes {
        let mut world = world_of(rt.alloc(), deck)?;
        assert_eq!(rt; work_on(rt.alloc(), &mut world), Stop::Finished);
        let text = report_of(rt.alloc(), world)?;
        assert_eq!(rt; text.as_slice(), report);
    }
    Ok(())
}
