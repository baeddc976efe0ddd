//! Who is looked at first. An entry gives a step to few actors as a rule: these are called behind it. The calls
//! have no meaning: whoever is not called and has a step comes by the round.

ghost use Rattle.std.specs.Prelude.{◌≡◌};
ghost use Rattle.pw_world_model.specs.Actors.{IsActor};

use crate::actors::{is_actor, owner_of_actor, processes_of, tcp_of};
use crate::ledger::Ledger;
use crate::world::World;
use pw_actor_queue::actor::Actor;
use pw_code::system::{MAX_CLASSES, MAX_TERMINALS};
use pw_event::event::Event;
use pw_event::script::Owner;
use pw_pair::mode::Mode;
use pw_pair::pair::Pair;
use pw_pair::seat::BackupSeat;
use pw_tmf::disc::Disc;
use pw_world_model::answers::Applied;
use pw_world_store::keep::Keep;

impl<D: Disc> World<D> {
    /// Whoever may work where this actor was looked at and may not is called: whose failure line is due,
    /// and the terminal for which a process works that meets a lock.
    pub(crate) fn call_for(&mut self, actor: Actor)
        ensures { self.new ≡ self.old }
    {
        if !is_actor(self.keep.system(), actor) {
            return;
        }
        if let Actor::Process { class, process } = actor {
            call_worker(&mut self.ledger, &self.keep, class, process);
        }
        self.call_due(actor);
    }

    /// Who makes the FAIL entry is called where a failure line is due for the entries of an actor.
    fn call_due(&mut self, actor: Actor)
        requires { IsActor self.old.keep.system actor }
        ensures { self.new ≡ self.old }
    {
        let owner = owner_of_actor(self.keep.system(), actor);
        if self.ledger.due(owner).is_some() {
            self.ledger.call(failing(owner));
        }
    }

    /// An actor of which an outcome was refused is called again; where it may not work, whoever may
    /// instead.
    pub(crate) fn call_again(&mut self, answer: Applied, actor: Actor)
        ensures { self.new ≡ self.old }
    {
        match answer {
            Applied::Stale { .. } | Applied::Unrun => self.ledger.call(actor),
            Applied::Held => self.call_for(actor),
            Applied::Done
            | Applied::Limit
            | Applied::Unbuilt
            | Applied::DiscFault
            | Applied::Memory => {}
        }
    }
}

/// Whoever has a step as a rule behind an entry that touches these actors is called, where this is kept
/// behind it.
pub fn call_behind<D: Disc>(ledger: &mut Ledger, keep: &Keep<D>, entry: &Event, touched: &[Actor])
    ensures { ledger.new ≡ ledger.old }
{
    match *entry {
        Event::Show { terminal, .. }
        | Event::Key { terminal, .. }
        | Event::Begin { terminal, .. }
        | Event::Again { terminal, .. } => ledger.call(Actor::Terminal(terminal)),
        Event::CheckStart { terminal }
        | Event::CheckEnd { terminal }
        | Event::CheckCopy { terminal } => {
            ledger.call(Actor::Pair(tcp_of(keep.system(), terminal)));
        }
        Event::Applied { terminal } => {
            call_applied(ledger, keep, tcp_of(keep.system(), terminal));
        }
        Event::Send { class, .. } => ledger.call(Actor::Class(class)),
        Event::Take { class, process, .. } => {
            ledger.call(Actor::Process { class, process });
            call_class(ledger, keep, class);
        }
        Event::File { class, process, .. } => ledger.call(Actor::Process { class, process }),
        Event::Reply {
            class,
            terminal,
            ..
        } => {
            ledger.call(Actor::Terminal(terminal));
            call_class(ledger, keep, class);
            call_replied(ledger, keep, terminal);
        }
        Event::Commit { terminal, .. } | Event::Back { terminal, .. } => {
            ledger.call(Actor::Terminal(terminal));
            call_ended(ledger, keep, terminal);
        }
        Event::Restart { .. } => {
            call_each(ledger, touched);
            call_working(ledger, keep);
        }
        Event::End { terminal, .. } => {
            call_each(ledger, touched);
            call_ended(ledger, keep, terminal);
        }
        Event::FailServer { class, .. } => {
            ledger.call(Actor::Class(class));
            call_each(ledger, touched);
            call_working(ledger, keep);
        }
        Event::FailTcp { tcp, .. } | Event::Takeover { tcp } => {
            call_each(ledger, touched);
            call_members(ledger, keep, tcp);
            call_working(ledger, keep);
        }
        Event::Raise { tcp } => ledger.call(Actor::Pair(tcp)),
    }
}

/// Who makes the FAIL entries of an owner.
fn failing(owner: Owner) -> Actor {
    match owner {
        Owner::Tcp(tcp) => Actor::Pair(tcp),
        Owner::Class(class) => Actor::Class(class),
    }
}

/// The terminal for which a process works is called.
fn call_worker<D: Disc>(ledger: &mut Ledger, keep: &Keep<D>, class: u32, process: u32)
    ensures { ledger.new ≡ ledger.old }
{
    if let Some(request) = keep.request(class, process) {
        ledger.call(Actor::Terminal(request.terminal));
    }
}

/// Each of these is called.
fn call_each(ledger: &mut Ledger, actors: &[Actor])
    ensures { ledger.new ≡ ledger.old }
{
    for one in actors {
        ledger.call(*one);
    }
}

/// A class is called where a request waits for it.
fn call_class<D: Disc>(ledger: &mut Ledger, keep: &Keep<D>, class: u32)
    ensures { ledger.new ≡ ledger.old }
{
    if keep.waiting(class) > 0 {
        ledger.call(Actor::Class(class));
    }
}

/// A pair is called where it raises a backup, or a message is in flight; and once it has taken all messages in,
/// its terminals are. So those that it takes in last are not passed over by those that it takes in first.
fn call_applied<D: Disc>(ledger: &mut Ledger, keep: &Keep<D>, tcp: u32)
    ensures { ledger.new ≡ ledger.old }
{
    if !is_actor(keep.system(), Actor::Pair(tcp)) {
        return;
    }
    if is_at_work(keep.pair(tcp)) {
        ledger.call(Actor::Pair(tcp));
    } else {
        call_seats(ledger, keep.pair(tcp).seats());
    }
}

/// Whether a pair raises a backup, or a message of it is in flight.
fn is_at_work(pair: &Pair) -> bool {
    pair.mode() == Mode::Raising || pair.seats().iter().any(is_sending)
}

/// Whether a message of a terminal is in flight.
fn is_sending(seat: &BackupSeat) -> bool {
    seat.flight.is_some()
}

/// A pair and its terminals are called.
fn call_members<D: Disc>(ledger: &mut Ledger, keep: &Keep<D>, tcp: u32)
    ensures { ledger.new ≡ ledger.old }
{
    ledger.call(Actor::Pair(tcp));
    if is_actor(keep.system(), Actor::Pair(tcp)) {
        call_seats(ledger, keep.pair(tcp).seats());
    }
}

/// The terminals of these seats are called.
fn call_seats(ledger: &mut Ledger, seats: &[BackupSeat])
    ensures { ledger.new ≡ ledger.old }
{
    for seat in seats {
        ledger.call(Actor::Terminal(seat.terminal));
    }
}

/// Whoever may go on where the unit of a terminal has ended by a reply is called.
fn call_replied<D: Disc>(ledger: &mut Ledger, keep: &Keep<D>, terminal: u32)
    ensures { ledger.new ≡ ledger.old }
{
    if is_actor(keep.system(), Actor::Terminal(terminal)) && keep.seat(terminal).unit.is_none() {
        call_ended(ledger, keep, terminal);
    }
}

/// Whoever may go on where a unit of a terminal has ended is called: the processes at work, which may have
/// met its locks, and the terminals that await it.
fn call_ended<D: Disc>(ledger: &mut Ledger, keep: &Keep<D>, terminal: u32)
    ensures { ledger.new ≡ ledger.old }
{
    call_working(ledger, keep);
    for other in 0..keep.system().terminals.len().min(MAX_TERMINALS as usize) as u32 {
        call_awaiting(ledger, keep, other, terminal);
    }
}

/// A terminal is called that awaits a unit of this one.
fn call_awaiting<D: Disc>(ledger: &mut Ledger, keep: &Keep<D>, other: u32, terminal: u32)
    ensures { ledger.new ≡ ledger.old }
{
    if !is_actor(keep.system(), Actor::Terminal(other)) {
        return;
    }
    if let Some(awaited) = keep.seat(other).awaits {
        if awaited.terminal == terminal {
            ledger.call(Actor::Terminal(other));
        }
    }
}

/// The processes at work are called.
fn call_working<D: Disc>(ledger: &mut Ledger, keep: &Keep<D>)
    ensures { ledger.new ≡ ledger.old }
{
    for class in 0..keep.system().classes.len().min(MAX_CLASSES as usize) as u32 {
        call_processes(ledger, keep, class);
    }
}

/// The processes of a class that are at work are called.
fn call_processes<D: Disc>(ledger: &mut Ledger, keep: &Keep<D>, class: u32)
    ensures { ledger.new ≡ ledger.old }
{
    for before in 0..processes_of(keep.system(), class) {
        let process = before + 1;
        if keep.request(class, process).is_some() {
            ledger.call(Actor::Process { class, process });
        }
    }
}
