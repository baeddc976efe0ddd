//! What is done to the seats of some terminals.

ghost use Rattle.std.specs.Prelude.{◌≡◌, ◌<◌, All, Some, length};
ghost use Rattle.pw_world_store.specs.Each.{changed_each, gone_each, gone_on};
ghost use Rattle.pw_pair.specs.Takeover.{resumption_of};
ghost use Rattle.pw_world_store.specs.Seats.{seat_unit_over, without_path};

use crate::seat::Seat;
use pw_event::event::Cause;
use pw_pair::resumed::Resumed;

/// No unit of these terminals is open.
pub fn end_units(seats: &mut Vec<Seat>, terminals: &[u32])
    requires { All (λ t. t < length seats.old.items) terminals.now }
    ensures { seats.new.items ≡ changed_each (λ t. seat_unit_over) terminals.now seats.old.items }
{
    for terminal in terminals {
        seats[*terminal as usize].end_unit();
    }
}

/// The paths of these terminals are gone.
pub fn lose_paths(seats: &mut Vec<Seat>, terminals: &[u32])
    requires { All (λ t. t < length seats.old.items) terminals.now }
    ensures { seats.new.items ≡ changed_each (λ t. without_path) terminals.now seats.old.items }
{
    for terminal in terminals {
        seats[*terminal as usize].lose_path();
    }
}

/// A terminal goes on so behind a takeover of its pair.
fn go_on(seat: &mut Seat, tcp: u32, resumed: Resumed)
    ensures { seat.new ≡ gone_on tcp (Some (resumption_of resumed)) seat.old }
{
    if seat.ending.is_none() {
        let cause = if seat.runs_unit(resumed.unit) {
            Some(Cause::Takeover(tcp))
        } else {
            None
        };
        seat.resume(resumed.context, cause);
    }
}

/// Terminals go on so behind a takeover of their pair.
pub fn go_on_each(seats: &mut Vec<Seat>, tcp: u32, mut resumed: Vec<Resumed>)
    requires { All (λ one. one.terminal < length seats.old.items) resumed.items }
    ensures { seats.new.items ≡ gone_each tcp resumed.items seats.old.items }
{
    while let Some(one) = resumed.pop() {
        go_on(&mut seats[one.terminal as usize], tcp, one);
    }
}
