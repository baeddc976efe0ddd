ghost use Rattle.std.specs.Prelude.{◌≡◌, ◌↔◌, ◌&&◌, ◌<◌, ◌≤◌, ◌+◌, ◌-◌, ◌++◌, option_to_list, vec_len, vec_capacity, if◌then◌else◌, [], count_by, find, length, map, slice_index_or, true, false, Some, None, IfOk, IfSome, IfNone, OnOk, OnErr, IsTrue, is_some};
ghost use Rattle.std.specs.List.{list_any, list_all};
ghost use Rattle.std.specs.Option.{option_copied};
ghost use Rattle.pw_pair.specs.Bodies.{body_of};
ghost use Rattle.pw_pair.specs.Pairs.{memory_of};
ghost use Rattle.pw_pair.specs.Rooms.{is_used};
ghost use Rattle.pw_pair.specs.declared.seat.BackupSeat.{BackupSeat as SeenSeat};
ghost use Rattle.pw_pair.specs.Seats.{is_lacking, start_of, without_backup, without_flight};

use crate::backup::Held;
use crate::link::{LinkTask, whole};
use crate::message::{Body, Carried, CheckKind};
use crate::seat::BackupSeat;
use pw_base::bytes::Bytes;
use pw_base::memory::Memory;
use pw_image::changes::changes;
use std::alloc::Global;
use std::collections::BTreeMap;
use std::marker::Model;

/// The seats of a pair's terminals, one for each. Contracts see them in order.
#[derive(Debug, Drop)]
pub struct Seats {
    seats: Vec<BackupSeat>,
    /// The place of each terminal's seat.
    places: BTreeMap<u32, usize>,
    /// How many seats are of live terminals that the memory lacks.
    lacking: usize,
    /// How many seats have a message in flight that is not built.
    waiting: usize,
}

impl Model for Seats {
    ghost use Rattle.std.specs.Prelude.{List};
    ghost use Rattle.pw_pair.specs.Places.{AreSeats};
    ghost use Rattle.pw_pair.specs.declared.seat.BackupSeat.{BackupSeat as SeenSeat};

    ghost Value = { List SeenSeat };

    ghost view = { λ seats. seats.seats.items };

    ghost invariant = { λ seats. AreSeats seats.seats.items seats.places seats.lacking seats.waiting };
}

/// How many of so many seats are counted, where one that was counted or not is counted or not now.
fn recount(seats: usize, count: usize, before: bool, after: bool) -> usize
    requires counted { (if before then 1 else 0) ≤ count }
    requires room { count + (if after then 1 else 0) ≤ seats + (if before then 1 else 0) }
    ensures { result ≡ count + (if after then 1 else 0) - (if before then 1 else 0) }
{
    match (before, after) {
        (true, false) => count - 1,
        (false, true) => count + 1,
        _ => count,
    }
}

impl Seats {
    ghost use Rattle.pw_pair.specs.Seats.{applied, at_terminal, built, dropped, has_own_memory, held_is_sound, is_built, is_flying, is_seat_of, is_sound, is_waiting, put_each, put_held, seats_with, stands_for, with_message, with_terminal};
    ghost use Rattle.pw_pair.specs.Bodies.{is_image};
    ghost use Rattle.pw_pair.specs.Pairs.{passes};
    ghost use Rattle.pw_pair.specs.Tasks.{task_at};

    /// The seats of some terminals, in the order in which they are named first.
    pub fn new(alloc: Global, terminals: &[u32]) -> Result<Seats, Memory>
        ensures { IfOk result (λ seats. seats ≡ seats_with [] terminals.now) }
    {
        let mut seats = Seats {
            seats: Vec::new(alloc),
            places: BTreeMap::new(alloc),
            lacking: 0,
            waiting: 0,
        };
        for terminal in terminals {
            seats.add(*terminal)?;
        }
        Ok(seats)
    }

    /// Adds the seat of a terminal, unless there is one. An `Err` leaves the seats as they were.
    fn add(&mut self, terminal: u32) -> Result<(), Memory>
        ensures ok { OnOk result (self.new ≡ with_terminal self.old terminal) }
        ensures err { OnErr result (self.new ≡ self.old) }
    {
        let place = self.seats.len();
        if self.places.contains_key(&terminal) {
            return Ok(());
        }
        self.seats.reserve(1)?;
        self.places.insert(terminal, place)?;
        self.seats.push(BackupSeat::new(terminal)).unwrap();
        self.lacking += 1;
        Ok(())
    }

    /// How many seats there are.
    pub fn len(&self) -> usize
        ensures { result ≡ length self.now }
    {
        self.seats.len()
    }

    /// The seats, in order.
    pub fn as_slice(&self) -> &[BackupSeat]
        ensures { result.now ≡ self.now }
    {
        self.seats.as_slice()
    }

    /// Whether some live terminal is lacking in the memory.
    pub fn lacks(&self) -> bool
        ensures { result ≡ list_any is_lacking self.now }
    {
        self.lacking > 0
    }

    /// The first seat whose message is in flight and not built. Where there is none, no seat is looked at.
    pub fn first_waiting(&self) -> Option<&BackupSeat>
        ensures { option_copied result ≡ find is_waiting self.now }
    {
        if self.waiting == 0 {
            return None;
        }
        self.seats.iter().find(|seat| seat.is_waiting())
    }

    /// The seat of a terminal, None exactly where there is none.
    pub fn get(&self, terminal: u32) -> Option<&BackupSeat>
        ensures seat { option_copied result ≡ find (is_seat_of terminal) self.now }
        ensures sound { IfSome result (λ seat. is_sound seat.now ≡ true) }
    {
        match self.places.get(&terminal) {
            Some(place) => Some(&self.seats[*place]),
            None => None,
        }
    }

    /// Takes the terminal's message in flight in. It takes no memory.
    pub fn apply(&mut self, terminal: u32)
        requires { passes is_built (find (is_seat_of terminal) self.old) ≡ true }
        ensures { self.new ≡ at_terminal terminal applied self.old }
    {
        let Some(place) = self.places.get(&terminal).copied() else {
            return;
        };
        let seat = &mut self.seats[place];
        let before = seat.is_lacking();
        seat.apply();
        let after = seat.is_lacking();
        self.lacking = recount(self.seats.len(), self.lacking, before, after);
    }

    /// Drops the terminal.
    pub fn drop_terminal(&mut self, terminal: u32)
        ensures { self.new ≡ at_terminal terminal dropped self.old }
    {
        let Some(place) = self.places.get(&terminal).copied() else {
            return;
        };
        let seat = &mut self.seats[place];
        let before = seat.is_lacking();
        let waited = seat.is_waiting();
        seat.drop_terminal();
        let after = seat.is_lacking();
        let waits = seat.is_waiting();
        self.lacking = recount(self.seats.len(), self.lacking, before, after);
        self.waiting = recount(self.seats.len(), self.waiting, waited, waits);
    }

    /// Puts a message in flight for the terminal: its changes against the start image that is held, where that is as
    /// long, and else the whole image. An `Err` leaves the seats as they were.
    pub fn send(
        &mut self,
        alloc: Global,
        terminal: u32,
        kind: CheckKind,
        unit: u32,
        image: Bytes,
    ) -> Result<(), Memory>
        requires { is_image image ≡ true }
        ensures ok { OnOk result (self.new ≡ at_terminal terminal (with_message kind unit image) self.old) }
        ensures err { OnErr result (self.new ≡ self.old) }
    {
        let Some(place) = self.places.get(&terminal).copied() else {
            return Ok(());
        };
        let body = body_at(alloc, self.seats.as_slice(), place, image)?;
        let seat = &mut self.seats[place];
        let waited = seat.is_waiting();
        seat.put_flight(Carried { kind, unit, body });
        let waits = seat.is_waiting();
        self.waiting = recount(self.seats.len(), self.waiting, waited, waits);
        Ok(())
    }

    /// The whole image that the terminal's message in flight stands for.
    pub fn image_in_flight(&self, alloc: Global, terminal: u32) -> Result<Bytes, Memory>
        requires { passes is_flying (find (is_seat_of terminal) self.now) ≡ true }
        ensures { IfOk result (λ image. IfSome (find (is_seat_of terminal) self.now) (stands_for image)) }
    {
        let Some(seat) = self.get(terminal) else {
            return Err(Memory);
        };
        match &seat.flight {
            Some(flight) => whole(alloc, seat.start(), &flight.message.body),
            None => Err(Memory),
        }
    }

    /// The task of the terminal's message in flight, which is not built.
    pub fn task(&self, alloc: Global, terminal: u32) -> Result<LinkTask, Memory>
        requires { passes is_waiting (find (is_seat_of terminal) self.now) ≡ true }
        ensures { IfOk result
            (λ task. task_at (find (is_seat_of terminal) self.now) ≡ Some task) }
    {
        match self.get(terminal) {
            Some(seat) => seat.task(alloc),
            None => unreachable!(),
        }
    }

    /// Whether a message of the task's terminal is in flight that is not built, and this is its task.
    pub fn has_task(&self, task: &LinkTask) -> bool
        ensures { IsTrue result
            ↔ (task_at (find (is_seat_of task.now.terminal) self.now) ≡ Some task.now) }
    {
        match self.get(task.terminal) {
            Some(seat) => seat.has_task(task),
            None => false,
        }
    }

    /// Puts the whole image that it stands for into the terminal's message in flight.
    pub fn put_image(&mut self, terminal: u32, image: Bytes)
        requires { IfSome (find (is_seat_of terminal) self.old) (stands_for image) }
        ensures { self.new ≡ at_terminal terminal built self.old }
    {
        let Some(place) = self.places.get(&terminal).copied() else {
            return;
        };
        let seat = &mut self.seats[place];
        let waited = seat.is_waiting();
        seat.put_image(image);
        let waits = seat.is_waiting();
        self.waiting = recount(self.seats.len(), self.waiting, waited, waits);
    }

    /// Puts what is held of a terminal into its seat.
    pub fn put_held(&mut self, held: Held)
        requires { held_is_sound held ≡ true }
        ensures seats { self.new ≡ map (put_held held) self.old }
        ensures used { count_by is_used self.new ≤ count_by is_used self.old + 1 }
    {
        let Some(place) = self.places.get(&held.terminal).copied() else {
            return;
        };
        let seat = &mut self.seats[place];
        let before = seat.is_lacking();
        let waited = seat.is_waiting();
        seat.put_held(held);
        let after = seat.is_lacking();
        let waits = seat.is_waiting();
        self.lacking = recount(self.seats.len(), self.lacking, before, after);
        self.waiting = recount(self.seats.len(), self.waiting, waited, waits);
    }

    /// Puts what is held of each terminal into its seat. It takes no memory.
    pub fn put_all(&mut self, images: &mut Vec<Held>)
        requires sound { list_all held_is_sound images.old.items ≡ true }
        requires room { count_by is_used self.old + vec_len images.old ≤ vec_capacity images.old }
        ensures seats { self.new ≡ map (put_each images.old.items) self.old }
        ensures empty { images.new.items ≡ [] }
        ensures used { count_by is_used self.new ≤ vec_capacity images.new }
    {
        while let Some(held) = images.pop() {
            self.put_held(held);
        }
    }

    /// Moves the memory of each terminal behind the images, in the order of the seats, and drops what is in flight. It
    /// takes no memory, since there is room. Where nothing was in flight, the memory that is put in again leaves what was.
    pub fn move_memory(&mut self, images: &mut Vec<Held>)
        requires room { vec_len images.old + count_by is_used self.old ≤ vec_capacity images.old }
        ensures after { self.new ≡ map without_backup self.old }
        ensures images { images.new.items ≡ images.old.items ++ memory_of self.old }
        ensures sound { list_all held_is_sound (memory_of self.old) ≡ true }
        ensures own { list_all has_own_memory self.old ≡ true }
        ensures back { list_any is_flying self.old ≡ false
            → map (put_each (memory_of self.old)) self.new ≡ self.old }
    {
        move_memory(&mut self.seats, images);
        self.lacking = lacking_in(self.seats.as_slice());
        self.waiting = 0;
    }

    /// Drops what is in memory and in flight.
    pub fn drop_backups(&mut self)
        ensures { self.new ≡ map without_backup self.old }
    {
        drop_backups(&mut self.seats);
        self.lacking = lacking_in(self.seats.as_slice());
        self.waiting = 0;
    }

    /// Drops what is in flight.
    pub fn drop_flights(&mut self)
        ensures { self.new ≡ map without_flight self.old }
    {
        drop_flights(&mut self.seats);
        self.waiting = 0;
    }
}

/// Moves the memory of each seat behind the images, and drops what is in flight.
fn move_memory(seats: &mut Vec<BackupSeat>, images: &mut Vec<Held>)
    requires room { vec_len images.old + count_by is_used seats.old.items ≤ vec_capacity images.old }
    ensures after { seats.new.items ≡ map without_backup seats.old.items }
    ensures images { images.new.items ≡ images.old.items ++ memory_of seats.old.items }
{
    for seat in seats.iter_mut() {
        move_one(seat, images);
    }
}

/// Moves the memory of a seat behind the images, and drops what is in flight.
fn move_one(seat: &mut BackupSeat, images: &mut Vec<Held>)
    requires room { vec_len images.old + (if is_used seat.old then 1 else 0) ≤ vec_capacity images.old }
    ensures after { seat.new ≡ without_backup seat.old }
    ensures images { images.new.items ≡ images.old.items ++ option_to_list seat.old.memory }
    ensures len { vec_len images.new ≤ vec_len images.old + (if is_used seat.old then 1 else 0) }
    ensures capacity { vec_capacity images.old ≤ vec_capacity images.new }
{
    seat.flight = None;
    if let Some(held) = seat.memory.take() {
        images.push(held).unwrap();
    }
}

/// How many seats are of live terminals that the memory lacks.
fn lacking_in(seats: &[BackupSeat]) -> usize
    ensures { result ≡ count_by is_lacking seats.now }
{
    seats.iter().filter(|seat| seat.is_lacking()).count()
}

/// Drops what is in memory and in flight.
fn drop_backups(seats: &mut Vec<BackupSeat>)
    ensures { seats.new.items ≡ map without_backup seats.old.items }
{
    for seat in seats.iter_mut() {
        seat.drop_backup();
    }
}

/// Drops what is in flight.
fn drop_flights(seats: &mut Vec<BackupSeat>)
    ensures { seats.new.items ≡ map without_flight seats.old.items }
{
    for seat in seats.iter_mut() {
        seat.drop_flight();
    }
}

/// What a message to the backup of the seat at a place carries of an image.
fn body_at(alloc: Global, seats: &[BackupSeat], place: usize, image: Bytes) -> Result<Body, Memory>
    requires { place < length seats.now }
    ensures { (d : SeenSeat) → IfOk result
        (λ body. body ≡ body_of (start_of (slice_index_or seats.now place d).memory) image) }
{
    body_of(alloc, &seats[place].memory, image)
}

/// What a message carries of an image.
fn body_of(alloc: Global, memory: &Option<Held>, image: Bytes) -> Result<Body, Memory>
    ensures { IfOk result (λ body. body ≡ body_of (start_of memory.now) image) }
{
    match memory {
        Some(held) if held.start.len() == image.len() => {
            let changed = changes(alloc, held.start.as_slice(), image.as_slice())?;
            Ok(Body::Delta(changed))
        }
        _ => Ok(Body::Whole(image)),
    }
}
