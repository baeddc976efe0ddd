ghost use Rattle.std.specs.Prelude.{◌≡◌, ◌&&◌, ◌<◌, ◌≤◌, [], find, length, true, false, not, Some, None, IfOk, IfSome, IsTrue, ◌↔◌, OnOk, OnErr, is_some, is_none};
ghost use Rattle.std.specs.List.{list_all};
ghost use Rattle.std.specs.Option.{option_copied};
ghost use Rattle.pw_pair.specs.Bodies.{is_image};
ghost use Rattle.pw_pair.specs.Seats.{built, has_memory, has_own_memory, holds_end, holds_start, is_built, is_flying, is_waiting, seats_with, without_backup};

use crate::backup::{Backup, Held};
use crate::link::{LinkDone, LinkTask};
use crate::message::CheckMessage;
use crate::mode::Mode;
use crate::seat::BackupSeat;
use crate::seats::Seats;
use pw_base::memory::Memory;
use std::alloc::Global;
use std::marker::Model;
use std::mem;

/// A pair: its mode, what its backup holds, and the messages in flight to it. Contracts see the mode and the seats of
/// its terminals; docs/design/ARCHITECTURE.md tells what each call does to them.
#[derive(Debug, Drop)]
pub struct Pair {
    mode: Mode,
    seats: Seats,
    /// Room for the memory when it leaves.
    room: Vec<Held>,
}

impl Model for Pair {
    ghost use Rattle.pw_pair.specs.Pairs.{SeenPair};
    ghost use Rattle.pw_pair.specs.Rooms.{HasEmptyRoom};

    ghost Value = { SeenPair };

    ghost view = { λ pair. record { mode = pair.mode; seats = pair.seats } };

    ghost invariant = { λ pair. HasEmptyRoom pair.mode pair.seats pair.room };
}

impl Pair {
    ghost use Rattle.pw_pair.specs.Pairs.{after_applied, after_drop, after_put_back, after_raise, after_send, after_take, backup_fails, changed_at, in_mode, memory_of, primary_fails, passes, seat_of, settled};
    ghost use Rattle.pw_pair.specs.Rooms.{MaySend, NeedsNoRoom};
    ghost use Rattle.pw_pair.specs.Tasks.{waiting_task};

    /// A pair in Alone with these terminals, none of which has ended.
    pub fn new(alloc: Global, terminals: &[u32]) -> Result<Pair, Memory>
        ensures { IfOk result (λ pair. pair ≡ record { mode = Mode.Alone; seats = seats_with [] terminals.now }) }
    {
        let seats = Seats::new(alloc, terminals)?;
        Ok(Pair {
            mode: Mode::Alone,
            seats,
            room: Vec::new(alloc),
        })
    }

    /// The mode.
    pub fn mode(&self) -> Mode
        ensures { result ≡ self.now.mode }
    {
        self.mode
    }

    /// Whether the backup holds every live terminal: whether the mode is Paired.
    pub fn up_to_date(&self) -> bool
        ensures { IsTrue result ↔ (self.now.mode ≡ Mode.Paired) }
    {
        self.mode == Mode::Paired
    }

    /// The seats of its terminals, one for each, in order.
    pub fn seats(&self) -> &[BackupSeat]
        ensures { result.now ≡ self.now.seats }
    {
        self.seats.as_slice()
    }

    /// The seat of its first terminal whose message is in flight and not built. Where none waits, no seat is looked at.
    pub fn first_waiting(&self) -> Option<&BackupSeat>
        ensures { option_copied result ≡ find is_waiting self.now.seats }
    {
        self.seats.first_waiting()
    }

    /// The seat of a terminal, None exactly where it is not of the pair.
    pub fn seat(&self, terminal: u32) -> Option<&BackupSeat>
        ensures { option_copied result ≡ seat_of terminal self.now }
    {
        self.seats.get(terminal)
    }

    /// Makes a new backup, which holds nothing. An `Err` leaves the pair as it was.
    pub fn raise(&mut self) -> Result<(), Memory>
        requires { self.old.mode ≡ Mode.Alone }
        ensures ok { OnOk result (self.new ≡ after_raise self.old) }
        ensures err { OnErr result (self.new ≡ self.old) }
    {
        let alloc = *self.room.allocator();
        let room = Vec::with_capacity(alloc, self.seats.len())?;
        self.room = room;
        self.mode = Mode::Raising;
        self.seats.drop_backups();
        Ok(())
    }

    /// Sends a message: its changes against the start image that the backup holds, where that is as long, and else the
    /// whole image. An `Err` leaves the pair as it was.
    pub fn send(&mut self, message: CheckMessage) -> Result<(), Memory>
        requires kind { MaySend self.old.mode message.kind }
        requires image { is_image message.image ≡ true }
        ensures ok { OnOk result (self.new ≡ after_send message self.old) }
        ensures err { OnErr result (self.new ≡ self.old) }
    {
        let alloc = *self.room.allocator();
        let CheckMessage {
            terminal,
            kind,
            unit,
            image,
        } = message;
        self.seats.send(alloc, terminal, kind, unit, image)
    }

    /// Whether a message of the terminal is in flight.
    pub fn in_flight(&self, terminal: u32) -> bool
        ensures { result ≡ passes is_flying (seat_of terminal self.now) }
    {
        match self.seats.get(terminal) {
            Some(seat) => seat.flight.is_some(),
            None => false,
        }
    }

    /// Whether the terminal's message in flight is built.
    pub fn built(&self, terminal: u32) -> bool
        ensures { result ≡ passes is_built (seat_of terminal self.now) }
    {
        match self.seats.get(terminal) {
            Some(seat) => seat.is_built(),
            None => false,
        }
    }

    /// The work of building the terminal's message in flight: a copy of the message, and of the
    /// start image that is held of the terminal.
    pub fn lend(&self, terminal: u32) -> Result<LinkTask, Memory>
        requires { passes is_waiting (seat_of terminal self.now) ≡ true }
        ensures { IfOk result (λ task. waiting_task terminal self.now ≡ Some task) }
    {
        let alloc = *self.room.allocator();
        self.seats.task(alloc, terminal)
    }

    /// Files the image of a task that is done, and says whether it did: exactly where the terminal's
    /// message in flight is not built, and it and the start image that is held are those of the
    /// task. It takes no memory.
    pub fn give_back(&mut self, done: LinkDone) -> bool
        ensures files { IsTrue result
            ↔ (waiting_task done.task.terminal self.old ≡ Some done.task) }
        ensures filed { result ≡ true
            → self.new ≡ changed_at done.task.terminal built self.old }
        ensures late { result ≡ false → self.new ≡ self.old }
    {
        let LinkDone { task, image } = done;
        if !self.seats.has_task(&task) {
            return false;
        }
        self.seats.put_image(task.terminal, image);
        true
    }

    /// Builds the terminal's message in flight, which carries its whole image from then on. An `Err` leaves the pair as
    /// it was.
    pub fn build_here(&mut self, terminal: u32) -> Result<(), Memory>
        requires { passes is_waiting (seat_of terminal self.old) ≡ true }
        ensures ok { OnOk result (self.new ≡ changed_at terminal built self.old) }
        ensures err { OnErr result (self.new ≡ self.old) }
    {
        let alloc = *self.room.allocator();
        let image = self.seats.image_in_flight(alloc, terminal)?;
        self.seats.put_image(terminal, image);
        Ok(())
    }

    /// Whether a message of the terminal is in flight that is not built.
    pub fn is_waiting(&self, terminal: u32) -> bool
        ensures { result ≡ passes is_waiting (seat_of terminal self.now) }
    {
        match self.seats.get(terminal) {
            Some(seat) => seat.is_waiting(),
            None => false,
        }
    }

    /// Whether the memory has the terminal.
    pub fn holds(&self, terminal: u32) -> bool
        ensures { result ≡ passes has_memory (seat_of terminal self.now) }
    {
        match self.seats.get(terminal) {
            Some(seat) => seat.memory.is_some(),
            None => false,
        }
    }

    /// Whether the memory has this unit and start image of the terminal.
    pub fn holds_start(&self, terminal: u32, unit: u32, image: &[u8]) -> bool
        ensures { result ≡ passes (holds_start unit image.now) (seat_of terminal self.now) }
    {
        match self.seats.get(terminal) {
            Some(seat) => seat.holds_start(unit, image),
            None => false,
        }
    }

    /// Whether the memory has this end image of the terminal.
    pub fn holds_end(&self, terminal: u32, image: &[u8]) -> bool
        ensures { result ≡ passes (holds_end image.now) (seat_of terminal self.now) }
    {
        match self.seats.get(terminal) {
            Some(seat) => seat.holds_end(image),
            None => false,
        }
    }

    /// Takes the terminal's message in flight in, which is built. It takes no memory.
    pub fn applied(&mut self, terminal: u32)
        requires { passes is_built (seat_of terminal self.old) ≡ true }
        ensures { self.new ≡ after_applied terminal self.old }
    {
        self.seats.apply(terminal);
        self.settle();
    }

    /// Drops a terminal that has ended. It takes no memory.
    pub fn drop_terminal(&mut self, terminal: u32)
        ensures { self.new ≡ after_drop terminal self.old }
    {
        self.seats.drop_terminal(terminal);
        self.settle();
    }

    /// Raising becomes Paired where no live terminal is lacking in the memory.
    fn settle(&mut self)
        ensures { self.new ≡ settled self.old }
    {
        if self.mode == Mode::Raising && !self.seats.lacks() {
            self.mode = Mode::Paired;
        }
    }

    /// The primary fails. It takes no memory.
    pub fn fail_primary(&mut self)
        ensures { self.new ≡ primary_fails self.old.mode self.old }
    {
        match self.mode {
            Mode::Paired => {
                self.mode = Mode::Down;
                self.seats.drop_flights();
            }
            Mode::Raising | Mode::Alone => self.lose(Mode::Gone),
            Mode::Down | Mode::Gone => {}
        }
    }

    /// The backup fails. It takes no memory.
    pub fn fail_backup(&mut self)
        ensures { self.new ≡ backup_fails self.old.mode self.old }
    {
        match self.mode {
            Mode::Paired | Mode::Raising => self.lose(Mode::Alone),
            Mode::Down => self.lose(Mode::Gone),
            Mode::Alone | Mode::Gone => {}
        }
    }

    /// The whole memory, each terminal once, which leaves the pair; put back, it leaves what was. It takes no memory.
    pub fn take_backup(&mut self) -> Backup
        requires { self.old.mode ≡ Mode.Down }
        ensures after { self.new ≡ after_take self.old }
        ensures images { result ≡ memory_of self.old.seats }
        ensures own { list_all has_own_memory self.old.seats ≡ true }
        ensures back { after_put_back result self.new ≡ self.old }
    {
        let alloc = *self.room.allocator();
        let mut images = mem::replace(&mut self.room, Vec::new(alloc));
        self.mode = Mode::Alone;
        self.seats.move_memory(&mut images);
        Backup { images }
    }

    /// Puts the memory of a backup that could not take over back. Terminals that are not of the pair are passed over. It
    /// takes no memory.
    pub fn put_back(&mut self, backup: Backup)
        requires { self.old.mode ≡ Mode.Alone }
        ensures { self.new ≡ after_put_back backup self.old }
    {
        let Backup { mut images } = backup;
        self.mode = Mode::Down;
        self.seats.drop_backups();
        self.seats.put_all(&mut images);
        self.room = images;
    }

    /// Goes into a mode without a backup.
    fn lose(&mut self, mode: Mode)
        requires { NeedsNoRoom mode }
        ensures { self.new ≡ in_mode mode without_backup self.old }
    {
        self.mode = mode;
        self.seats.drop_backups();
    }
}
