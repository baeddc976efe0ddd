ghost use Rattle.std.specs.Prelude.{◌≡◌};
ghost use Rattle.pw_serial_order.specs.Pairs.{loss_of, mode_behind, seat_behind_loss};

use crate::seat::OrderSeat;
use pw_base::bytes::Bytes;

/// What the order keeps of a pair's mode: Raising and Paired are one, since whether the backup holds
/// every live terminal is seen from the terminals.
#[derive(Clone, Copy, Debug, PartialEq, Eq)]
pub enum OrderMode {
    /// One member works, and there is no backup.
    Alone,
    /// There is a backup.
    Backed,
    /// The primary has failed, and the backup has not taken over.
    Down,
    /// No member is left.
    Gone,
}

/// What a pair loses when a member of it fails.
#[derive(Clone, Copy, Debug, PartialEq, Eq)]
pub enum Loss {
    Nothing,
    /// Its primary: the backup can take over.
    Primary,
    /// Its backup.
    Backup,
    /// Its last member that was up to date.
    Pair,
}

impl OrderMode {
    /// The mode of a pair of this name before the first entry.
    pub fn of(_name: &Bytes) -> OrderMode
        ensures { result ≡ OrderMode.Alone }
    {
        OrderMode::Alone
    }

    /// What is lost when a member fails, in a pair whose backup lacks a live terminal or none.
    pub fn loses(self, primary: bool, lacks: bool) -> Loss
        ensures { result ≡ loss_of self primary lacks }
    {
        match (self, primary) {
            (OrderMode::Backed, true) if lacks => Loss::Pair,
            (OrderMode::Backed, true) => Loss::Primary,
            (OrderMode::Backed, false) => Loss::Backup,
            (OrderMode::Alone, true) | (OrderMode::Down, false) => Loss::Pair,
            _ => Loss::Nothing,
        }
    }

    /// The mode behind a loss.
    pub fn behind(self, loss: Loss) -> OrderMode
        ensures { result ≡ mode_behind loss self }
    {
        match loss {
            Loss::Nothing => self,
            Loss::Primary => OrderMode::Down,
            Loss::Backup => OrderMode::Alone,
            Loss::Pair => OrderMode::Gone,
        }
    }
}

impl Loss {
    /// The seat of a terminal of the pair behind the loss.
    pub fn of_seat(self, seat: OrderSeat) -> OrderSeat
        ensures { result ≡ seat_behind_loss self seat }
    {
        match self {
            Loss::Nothing => seat,
            Loss::Primary => seat.down(),
            Loss::Backup => seat.without_backup(),
            Loss::Pair => seat.lost(),
        }
    }
}
