ghost use Rattle.std.specs.Prelude.{◌≡◌, ◌++◌, ◌∷◌, [], List, None, IfOk, OnOk, OnErr};
ghost use Rattle.pw_event.specs.declared.event.Event.{Event as Entry};
ghost use Rattle.pw_onecopy.specs.Behaviour.{Behaviour};
ghost use Rattle.pw_onecopy.specs.IsBehaviour.{IsBehaviour};
ghost use Rattle.pw_paired.specs.Step.{IsRun, after};

use crate::block::Block;
use crate::pair::{Loss, OrderMode};
use crate::seat::OrderSeat;
use crate::seats::{empty_memory, lacks, lose, modes_of, put_left, read_seat, seats_of, take_over};
use pw_base::memory::Memory;
use pw_code::system::System;
use pw_event::event::Event;
use std::alloc::Global;
use std::marker::Model;

/// What the serial order of a log needs of the entries so far (docs/reference/DECK.md): of each path its length
/// and where it stands, in place of the path.
#[derive(Debug, Drop)]
pub struct SerialOrder {
    seats: Vec<OrderSeat>,
    modes: Vec<OrderMode>,
}

impl Model for SerialOrder {
    ghost use Rattle.pw_serial_order.specs.Entries.{Shadow};

    ghost Value = { Shadow };

    ghost view = { λ order. record { seats = order.seats.items; modes = order.modes.items } };
}

impl SerialOrder {
    ghost use Rattle.pw_serial_order.specs.Entries.{changed_at, blocks_given, loss_at, loss_gives, shadow_behind, shadow_behind_loss};
    ghost use Rattle.pw_serial_order.specs.Order.{blocks_behind, last_order};
    ghost use Rattle.pw_serial_order.specs.Pairs.{mode_behind};
    ghost use Rattle.pw_serial_order.specs.Shadow.{IsOfSystem, IsOneSendFlag, ShadowStands};

    /// Before the first entry of a log of the system.
    pub fn new(alloc: Global, system: &System) -> Result<SerialOrder, Memory>
        ensures { IfOk result (λ order. (sys : Behaviour) → IsOfSystem system.now sys → ShadowStands sys [] order) }
    {
        Ok(SerialOrder {
            seats: seats_of(alloc, system)?,
            modes: modes_of(alloc, system)?,
        })
    }

    /// Reads the next entry of a run, and puts the blocks that it gives behind others. Where it is
    /// the BEGIN of a unit, `one_send` tells whether this unit is one SEND. An `Err` leaves both as
    /// they were.
    pub fn push(
        &mut self,
        entry: &Event,
        one_send: bool,
        order: &mut Vec<Block>,
    ) -> Result<(), Memory>
        ensures reads { (sys : Behaviour) → IsBehaviour sys
            → (log : List Entry) → IsRun sys (log ++ entry.now ∷ [])
            → IsOneSendFlag sys (after sys log) entry.now one_send → ShadowStands sys log self.old
            → OnOk result (ShadowStands sys (log ++ entry.now ∷ []) self.new
            × (order.new.items ≡ order.old.items ++ blocks_behind sys log entry.now)) }
        ensures err { OnErr result ((self.new ≡ self.old) × (order.new.items ≡ order.old.items)) }
    {
        self.read(entry, one_send, order)
    }

    /// Puts the blocks at the end of a log behind others: what still runs is left. An `Err` leaves
    /// these as they were.
    pub fn end(&self, order: &mut Vec<Block>) -> Result<(), Memory>
        ensures ends { (sys : Behaviour) (log : List Entry) → ShadowStands sys log self.now
            → OnOk result (order.new.items ≡ order.old.items ++ last_order sys log) }
        ensures err { OnErr result (order.new.items ≡ order.old.items) }
    {
        put_left(self.seats.as_slice(), None, order)
    }

    /// Reads an entry by its kind.
    fn read(&mut self, entry: &Event, one_send: bool, order: &mut Vec<Block>) -> Result<(), Memory>
        ensures kept { OnOk result (self.new ≡ shadow_behind one_send entry.now self.old) }
        ensures order { OnOk result (order.new.items ≡ order.old.items ++ blocks_given self.old entry.now) }
        ensures err { OnErr result ((self.new ≡ self.old) × (order.new.items ≡ order.old.items)) }
    {
        match *entry {
            Event::FailTcp { tcp, primary, .. } => self.fail(tcp, primary, order),
            Event::Takeover { tcp } => {
                take_over(&mut self.seats, tcp);
                self.put_mode(tcp, OrderMode::Alone);
                Ok(())
            }
            Event::Raise { tcp } => {
                empty_memory(&mut self.seats, tcp);
                self.put_mode(tcp, OrderMode::Backed);
                Ok(())
            }
            _ => read_seat(&mut self.seats, entry, one_send, order),
        }
    }

    /// Reads the failure of a member of a pair.
    fn fail(&mut self, tcp: u32, primary: bool, order: &mut Vec<Block>) -> Result<(), Memory>
        ensures kept { OnOk result (self.new
            ≡ shadow_behind_loss (loss_at self.old tcp primary) tcp self.old) }
        ensures order { OnOk result (order.new.items
            ≡ order.old.items ++ loss_gives (loss_at self.old tcp primary) tcp self.old.seats) }
        ensures err { OnErr result ((self.new ≡ self.old) × (order.new.items ≡ order.old.items)) }
    {
        let loss = self.loss(tcp, primary);
        if loss == Loss::Pair {
            put_left(self.seats.as_slice(), Some(tcp), order)?;
        }
        lose(&mut self.seats, tcp, loss);
        self.change_mode(tcp, loss);
        Ok(())
    }

    /// What a pair loses when a member of it fails.
    fn loss(&self, tcp: u32, primary: bool) -> Loss
        ensures { result ≡ loss_at self.now tcp primary }
    {
        match self.modes.get(tcp as usize) {
            Some(mode) => mode.loses(primary, lacks(self.seats.as_slice(), tcp)),
            None => Loss::Nothing,
        }
    }

    /// Changes the mode of a pair by a loss.
    fn change_mode(&mut self, tcp: u32, loss: Loss)
        ensures { self.new ≡ record self.old { modes = changed_at tcp (mode_behind loss) self.old.modes } }
    {
        if let Some(mode) = self.modes.get(tcp as usize).copied() {
            self.modes[tcp as usize] = mode.behind(loss);
        }
    }

    /// Sets the mode of a pair.
    fn put_mode(&mut self, tcp: u32, mode: OrderMode)
        ensures { self.new ≡ record self.old { modes = changed_at tcp (λ _. mode) self.old.modes } }
    {
        if (tcp as usize) < self.modes.len() {
            self.modes[tcp as usize] = mode;
        }
    }
}
