ghost use Rattle.std.specs.Prelude.{◌≡◌, ◌<◌, ◌≤◌, ◌^◌, ◌-◌, ◌+◌, ◌++◌, ◌∷◌, [], IfOk, OnErr, OnOk, false, length, true, vec_capacity, vec_len};
ghost use Rattle.pw_world.specs.Ledgers.{IsFirstLedger, IsNoted, ends, listed};
ghost use Rattle.pw_world_model.specs.Dues.{IsOwner, count_of, due_entry_counted, due_in, without_fail};
ghost use Rattle.pw_world_model.specs.Pushed.{live_behind};
ghost use Rattle.pw_actor_queue.specs.Places.{IsNext, all_marked, is_placed, is_waiting, actor_noted, notes_in, stamped, waiting, with_mark, with_out};

use pw_actor_queue::actor::Actor;
use pw_actor_queue::roster::{ActorNote, Roster};
use pw_base::memory::Memory;
use pw_code::system::{MAX_CLASSES, MAX_TCPS, System};
use pw_event::event::Event;
use pw_event::script::{Owner, Script};
use pw_onecopy::refresh::Refresh;
use pw_world_model::due::DueLines;
use std::alloc::Global;
use std::marker::Model;

/// The log of a world and the books beside it, so that no step walks the log.
#[derive(Drop)]
pub struct Ledger {
    log: Vec<Event>,
    refreshes: Vec<Refresh>,
    one_sends: Vec<bool>,
    due: DueLines,
    live: u32,
    roster: Roster,
}

impl Model for Ledger {
    ghost use Rattle.std.specs.Prelude.{◌&&◌, nat_lt, vec_capacity, vec_len};
    ghost use Rattle.pw_world.specs.Ledgers.{LedgerState};

    ghost Value = { LedgerState };

    ghost view = { λ ledger. record {
      log = ledger.log.items;
      refreshes = ledger.refreshes.items;
      one_sends = ledger.one_sends.items;
      due = ledger.due;
      live = ledger.live;
      notes = ledger.roster.notes;
      spare =
          nat_lt (vec_len ledger.log) (vec_capacity ledger.log)
          && (nat_lt (vec_len ledger.refreshes) (vec_capacity ledger.refreshes)
          && nat_lt (vec_len ledger.one_sends) (vec_capacity ledger.one_sends));
    } };
}

impl Ledger {
    /// The ledger of a log without entries.
    pub fn new(alloc: Global, system: &System, script: &Script) -> Result<Ledger, Memory>
        requires lines { length script.now.lines < 2 ^ 32 - 1 }
        requires terminals { length system.now.terminals < 2 ^ 32 }
        ensures { IfOk result (IsFirstLedger system.now script.now.lines) }
    {
        let mut roster = Roster::new(alloc)?;
        roster.mark_all();
        call_first(&mut roster, system);
        let due = DueLines::new(alloc, system.tcps.len(), system.classes.len(), script)?;
        Ok(Ledger {
            log: Vec::new(alloc),
            refreshes: Vec::new(alloc),
            one_sends: Vec::new(alloc),
            due,
            live: system.terminals.len() as u32,
            roster,
        })
    }

    /// The log.
    pub fn log(&self) -> &[Event]
        ensures { result.now ≡ self.now.log }
    {
        self.log.as_slice()
    }

    /// The refreshes that the log's entries made.
    pub fn refreshes(&self) -> &[Refresh]
        ensures { result.now ≡ self.now.refreshes }
    {
        self.refreshes.as_slice()
    }

    /// For each entry whether it is the BEGIN of one SEND.
    pub fn one_sends(&self) -> &[bool]
        ensures { result.now ≡ self.now.one_sends }
    {
        self.one_sends.as_slice()
    }

    /// How many terminals are live.
    pub fn live(&self) -> u32
        ensures { result ≡ self.now.live }
    {
        self.live
    }

    /// The number of the failure line of an owner that is due.
    pub fn due(&self, owner: Owner) -> Option<u32>
        requires { IsOwner (length self.now.due.tcps) (length self.now.due.classes) owner }
        ensures { result ≡ due_in self.now.due owner }
    {
        self.due.due(owner)
    }

    /// What is noted of an actor.
    pub fn note(&self, actor: Actor) -> ActorNote
        requires { is_placed actor ≡ true }
        ensures { result ≡ notes_in self.now.notes actor }
    {
        self.roster.get(actor)
    }

    /// An actor that is marked and not out, None exactly where there is none. Who is called comes first,
    /// and whoever was passed over comes by the round.
    pub fn next(&mut self) -> Option<Actor>
        ensures next { IsNext (notes_in self.old.notes) result }
        ensures same { self.new ≡ self.old }
    {
        self.roster.next()
    }

    /// The actor stands in line for the looks at actors, if it has a place.
    pub fn call(&mut self, actor: Actor)
        ensures { self.new ≡ self.old }
    {
        self.roster.call(actor);
    }

    /// The actor is out from now on, or no more.
    pub fn set_out(&mut self, actor: Actor, out: bool)
        requires { is_placed actor ≡ true }
        ensures notes { notes_in self.new.notes ≡ actor_noted actor (with_out out) (notes_in self.old.notes) }
        ensures rest { IsNoted self.old self.new }
    {
        self.roster.set_out(actor, out);
    }

    /// The actor is looked at for work no more.
    pub fn unmark(&mut self, actor: Actor)
        requires { is_placed actor ≡ true }
        ensures notes { notes_in self.new.notes ≡ actor_noted actor (with_mark false) (notes_in self.old.notes) }
        ensures fewer { is_waiting (notes_in self.old.notes actor) ≡ true
            → waiting self.new.notes < waiting self.old.notes }
        ensures rest { IsNoted self.old self.new }
    {
        self.roster.unmark(actor);
    }

    /// The actor's state changes by the last entry.
    pub fn stamp(&mut self, actor: Actor)
        requires { is_placed actor ≡ true }
        ensures notes { notes_in self.new.notes
            ≡ actor_noted actor (stamped (length self.old.log)) (notes_in self.old.notes) }
        ensures rest { IsNoted self.old self.new }
    {
        self.roster.stamp(actor, self.log.len() as u64);
    }

    /// The actor's state changes by the last entry, and it stands in line.
    pub fn stamp_called(&mut self, actor: Actor)
        requires { is_placed actor ≡ true }
        ensures notes { notes_in self.new.notes
            ≡ actor_noted actor (stamped (length self.old.log)) (notes_in self.old.notes) }
        ensures rest { IsNoted self.old self.new }
    {
        self.roster.call(actor);
        self.stamp(actor);
    }

    /// Every actor is looked at for work, and this one stands in line.
    pub fn wake(&mut self, actor: Actor)
        ensures notes { notes_in self.new.notes ≡ all_marked (notes_in self.old.notes) }
        ensures rest { IsNoted self.old self.new }
    {
        self.roster.call(actor);
        self.mark_all();
    }

    /// Every actor is looked at for work.
    pub fn mark_all(&mut self)
        ensures notes { notes_in self.new.notes ≡ all_marked (notes_in self.old.notes) }
        ensures rest { IsNoted self.old self.new }
    {
        self.roster.mark_all();
    }

    /// Makes room for one entry more. An `Err` leaves all but that as it was.
    pub fn reserve(&mut self) -> Result<(), Memory>
        ensures ok { OnOk result (self.new ≡ record self.old { spare = true }) }
        ensures err { OnErr result (self.new ≡ record self.old { spare = self.new.spare }) }
    {
        self.log.reserve(1)?;
        self.refreshes.reserve(1)?;
        self.one_sends.reserve(1)?;
        Ok(())
    }

    /// Takes one more entry in, which belongs to this owner and makes this refresh, if any.
    pub fn push(&mut self, entry: &Event, owner: Owner, one_send: bool, refresh: Option<Refresh>)
        requires spare { self.old.spare ≡ true }
        requires owner { IsOwner (length self.old.due.tcps) (length self.old.due.classes) owner }
        requires few { count_of self.old.due owner < 2 ^ 64 - 1 }
        requires live { ends entry.now ≡ true → 1 ≤ self.old.live }
        ensures { self.new ≡ record self.old {
          log = self.old.log ++ entry.now ∷ [];
          refreshes = self.old.refreshes ++ listed refresh;
          one_sends = self.old.one_sends ++ one_send ∷ [];
          due = due_entry_counted owner (record self.old.due { waiting = without_fail entry.now self.old.due.waiting });
          live = live_behind entry.now self.old.live;
          spare = self.new.spare;
        } }
    {
        push_reserved(&mut self.log, *entry);
        push_reserved(&mut self.one_sends, one_send);
        if let Some(refresh) = refresh {
            push_reserved(&mut self.refreshes, refresh);
        }
        self.due.push(owner, entry);
        self.live = live_behind(entry, self.live);
    }
}

/// The pairs and classes of a system stand in line: no terminal can step before its pair has.
fn call_first(roster: &mut Roster, system: &System)
    ensures { roster.new.notes ≡ roster.old.notes }
{
    for tcp in 0..system.tcps.len().min(MAX_TCPS as usize) as u32 {
        roster.call(Actor::Pair(tcp));
    }
    for class in 0..system.classes.len().min(MAX_CLASSES as usize) as u32 {
        roster.call(Actor::Class(class));
    }
}

/// How many terminals are live behind an entry.
fn live_behind(entry: &Event, live: u32) -> u32
    requires { ends entry.now ≡ true → 1 ≤ live }
    ensures { result ≡ live_behind entry.now live }
{
    match *entry {
        Event::End { .. } => live - 1,
        _ => live,
    }
}

/// Puts an item where there is room for it.
fn push_reserved<T: Drop>(items: &mut Vec<T>, item: T)
    requires { vec_len items.old < vec_capacity items.old }
    ensures { items.new.items ≡ items.old.items ++ item ∷ [] }
{
    match items.push(item) {
        Ok(()) => (),
        Err(_) => unreachable!(),
    }
}
