ghost use Rattle.std.specs.Prelude.{◌≡◌, ◌<◌, ◌≤◌, ℕ, true, IfOk, IfSome, None, find, if◌then◌else◌, nat_lt, position, false, length, slice_index_or};
ghost use Rattle.pw_actor_queue.specs.Line.{IsNearest, IsRenoted, TakesTurn, behind_first, line_called, most_passed, waits_at};
ghost use Rattle.pw_actor_queue.specs.Places.{IsNext, all_marked, blank, is_placed, is_waiting, actor_noted, notes_in, stamped, waiting, with_mark, with_out};

use crate::actor::Actor;
use crate::line::PlaceLine;
use crate::places::{PLACES, actor_at, is_placed, place_of};
use pw_base::memory::Memory;
use std::alloc::Global;
use std::marker::Model;

/// How many come from the line before one comes by the round.
const MOST_PASSED: u8 = 16;

/// What a world notes of an actor.
#[derive(Clone, Copy, Debug, PartialEq, Eq)]
pub struct ActorNote {
    /// The length of the log when the actor's state last changed.
    pub stamp: u64,
    /// Whether it is out: its task was claimed, and no outcome of it was applied yet.
    pub out: bool,
    /// Whether it is looked at for work.
    pub marked: bool,
}

/// What a world notes of each actor, in one flat list, and who comes next of those that are looked at
/// for work: the first of those who were called, and by a round over all places whoever was not.
#[derive(Debug, Drop)]
pub struct Roster {
    notes: Vec<ActorNote>,
    line: PlaceLine,
    /// The place from which the round goes on.
    round: usize,
    /// How many have come from the line since one came by the round.
    passed: u8,
    /// True only where each actor is marked, so that they need not be marked again.
    is_all: bool,
}

impl Model for Roster {
    ghost use Rattle.pw_actor_queue.specs.Line.{IsRoster, RosterState};

    ghost Value = { RosterState };

    ghost view = { λ roster. record {
      notes = roster.notes.items;
      line = roster.line;
      round = roster.round;
      passed = roster.passed;
    } };

    ghost invariant = { λ roster. IsRoster roster.notes.items roster.round roster.passed roster.is_all };
}

impl Roster {
    /// No actor has changed, none is out, none is marked, and none was called.
    pub fn new(alloc: Global) -> Result<Roster, Memory>
        ensures { IfOk result (λ roster. notes_in roster.notes ≡ (λ actor. blank)) }
    {
        let blank = ActorNote {
            stamp: 0,
            out: false,
            marked: false,
        };
        Ok(Roster {
            notes: vec![in alloc; blank; PLACES]?,
            line: PlaceLine::new(alloc)?,
            round: 0,
            passed: 0,
            is_all: false,
        })
    }

    /// What is noted of an actor.
    pub fn get(&self, actor: Actor) -> ActorNote
        requires { is_placed actor ≡ true }
        ensures { result ≡ notes_in self.now.notes actor }
    {
        self.notes[place_of(actor)]
    }

    /// The actor's state changes behind so many entries.
    pub fn stamp(&mut self, actor: Actor, length: u64)
        requires { is_placed actor ≡ true }
        ensures notes { notes_in self.new.notes ≡ actor_noted actor (stamped length) (notes_in self.old.notes) }
        ensures rest { IsRenoted self.old self.new }
    {
        self.notes[place_of(actor)].stamp = length;
    }

    /// The actor is out from now on, or no more.
    pub fn set_out(&mut self, actor: Actor, out: bool)
        requires { is_placed actor ≡ true }
        ensures notes { notes_in self.new.notes ≡ actor_noted actor (with_out out) (notes_in self.old.notes) }
        ensures rest { IsRenoted self.old self.new }
    {
        self.notes[place_of(actor)].out = out;
    }

    /// The actor is looked at for work no more.
    pub fn unmark(&mut self, actor: Actor)
        requires { is_placed actor ≡ true }
        ensures notes { notes_in self.new.notes ≡ actor_noted actor (with_mark false) (notes_in self.old.notes) }
        ensures fewer { is_waiting (notes_in self.old.notes actor) ≡ true
            → waiting self.new.notes < waiting self.old.notes }
        ensures rest { IsRenoted self.old self.new }
    {
        self.is_all = false;
        self.notes[place_of(actor)].marked = false;
    }

    /// Every actor is looked at for work from now on.
    pub fn mark_all(&mut self)
        ensures notes { notes_in self.new.notes ≡ all_marked (notes_in self.old.notes) }
        ensures rest { IsRenoted self.old self.new }
    {
        if self.is_all {
            return;
        }
        mark_each(&mut self.notes);
        self.is_all = true;
    }

    /// The actor stands in line from now on, if it has a place.
    pub fn call(&mut self, actor: Actor)
        ensures { self.new ≡ record self.old { line = line_called actor self.old.line } }
    {
        if is_placed(actor) {
            self.line.call(place_of(actor));
        }
    }

    /// An actor that is marked and not out, None exactly where there is none: the first of those in
    /// line; or the nearest in the round, where none in line is such, and behind every sixteen from the
    /// line.
    pub fn next(&mut self) -> Option<Actor>
        ensures next { IsNext (notes_in self.old.notes) result }
        ensures turn { TakesTurn self.old result self.new }
        ensures notes { self.new.notes ≡ self.old.notes }
    {
        if let Some(place) = from_line(&mut self.line, &self.notes, self.passed) {
            self.passed += 1;
            return Some(actor_at(place));
        }
        self.passed = 0;
        let place = nearest(&self.notes, self.round)?;
        self.round = place + 1;
        Some(actor_at(place))
    }
}

/// Marks each of these notes.
fn mark_each(notes: &mut [ActorNote])
    ensures size { length notes.new ≡ length notes.old }
    ensures marks { (k : ℕ) → k < length notes.old
        → slice_index_or notes.new k blank ≡ with_mark true (slice_index_or notes.old k blank) }
{
    for note in notes.iter_mut() {
        note.marked = true;
    }
}

/// Who comes from the line, unless so many have come from it that it is the round's turn.
fn from_line(line: &mut PlaceLine, notes: &[ActorNote], passed: u8) -> Option<usize>
    requires { length notes.now ≡ 408 }
    ensures found { result ≡ (if nat_lt passed most_passed then find (waits_at notes.now) line.old else None) }
    ensures line { line.new ≡ (if nat_lt passed most_passed then behind_first (waits_at notes.now) line.old else line.old) }
    ensures low { IfSome result (λ place. place < 408) }
    ensures waits { IfSome result (λ place. waits_at notes.now place ≡ true) }
    ensures few { IfSome result (λ place. passed < most_passed) }
{
    if passed < MOST_PASSED {
        first_in_line(line, notes)
    } else {
        None
    }
}

/// The first in line who is marked and not out leaves the line, and all before him do.
fn first_in_line(line: &mut PlaceLine, notes: &[ActorNote]) -> Option<usize>
    requires { length notes.now ≡ 408 }
    ensures found { result ≡ find (waits_at notes.now) line.old }
    ensures line { line.new ≡ behind_first (waits_at notes.now) line.old }
    ensures low { IfSome result (λ place. place < 408) }
    ensures waits { IfSome result (λ place. waits_at notes.now place ≡ true) }
{
    while let Some(place) = line.leave() {
        if is_waiting(&notes[place]) {
            return Some(place);
        }
    }
    None
}

/// The place of the nearest in the round who is marked and not out.
fn nearest(notes: &[ActorNote], round: usize) -> Option<usize>
    requires size { length notes.now ≡ 408 }
    requires within { round ≤ 408 }
    ensures none { result ≡ None → (place : ℕ) → waits_at notes.now place ≡ false }
    ensures waits { IfSome result (λ place. waits_at notes.now place ≡ true) }
    ensures low { IfSome result (λ place. place < 408) }
    ensures nearest { IfSome result (IsNearest notes.now round) }
{
    match first_waiting(&notes[round..]) {
        Some(ahead) => Some(round + ahead),
        None => first_waiting(notes),
    }
}

/// The first place of which the actor is marked and not out.
fn first_waiting(notes: &[ActorNote]) -> Option<usize>
    ensures { result ≡ position is_waiting notes.now }
{
    notes.iter().position(is_waiting)
}

/// Whether an actor is marked and not out.
fn is_waiting(note: &ActorNote) -> bool
    ensures { result ≡ is_waiting note.now }
{
    note.marked && !note.out
}
