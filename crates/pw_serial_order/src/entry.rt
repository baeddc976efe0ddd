ghost use Rattle.std.specs.Prelude.{◌≡◌, ◌++◌, IfOk, OnOk, OnErr, option_to_list};
ghost use Rattle.pw_serial_order.specs.Entries.{attempt_left, leaves, out_given, reply_given, seat_behind, seat_behind_reply, seat_gives, terminal_in, unit_left};

use crate::block::{Block, How};
use crate::mark::PathMark;
use crate::seat::{MarkedUnit, OrderSeat};
use pw_base::memory::Memory;
use pw_event::event::{Ending, Event};

/// The terminal whose seat alone an entry may change, if there is one.
pub fn terminal_in(entry: &Event) -> Option<u32>
    ensures { result ≡ terminal_in entry.now }
{
    match *entry {
        Event::Show { terminal, .. }
        | Event::Key { terminal, .. }
        | Event::CheckStart { terminal }
        | Event::CheckEnd { terminal }
        | Event::CheckCopy { terminal }
        | Event::Applied { terminal }
        | Event::Begin { terminal, .. }
        | Event::Reply { terminal, .. }
        | Event::Again { terminal, .. }
        | Event::Commit { terminal, .. }
        | Event::Back { terminal, .. }
        | Event::Restart { terminal, .. }
        | Event::End { terminal, .. } => Some(terminal),
        _ => None,
    }
}

/// Whether an open unit is left with this ending of its terminal: with each but Stopped and Lost
/// (docs/reference/DECK.md).
pub fn leaves(ending: Ending) -> bool
    ensures { result ≡ leaves ending }
{
    !matches!(ending, Ending::Stopped | Ending::Lost)
}

/// The seat of its terminal behind an entry. `one_send` tells of a BEGIN whether its unit is one SEND.
/// `Memory` comes only where a number would not fit.
pub fn seat_behind(seat: OrderSeat, entry: &Event, one_send: bool) -> Result<OrderSeat, Memory>
    ensures { IfOk result (λ next. next ≡ seat_behind one_send entry.now seat) }
{
    match *entry {
        Event::Show { .. } | Event::Key { .. } => seat.answered(),
        Event::CheckStart { .. } => seat.check_start(),
        Event::CheckEnd { .. } => seat.check_end(),
        Event::CheckCopy { .. } => seat.check_copy(),
        Event::Applied { .. } => Ok(seat.applied()),
        Event::Begin { unit, .. } => seat.begun(unit, one_send),
        Event::Reply { fault, .. } => seat_behind_reply(seat, fault),
        Event::Again { .. } => seat.again(),
        Event::Commit { unit, .. } | Event::Back { unit, .. } => seat.ended(unit),
        Event::Restart { .. } => Ok(seat.restarted()),
        Event::End { ending, .. } => Ok(seat.done(leaves(ending))),
        _ => Ok(seat),
    }
}

/// The seat behind a REPLY: with a reply, or with the run fault of the server.
fn seat_behind_reply(seat: OrderSeat, fault: Option<u16>) -> Result<OrderSeat, Memory>
    ensures { IfOk result (λ next. next ≡ seat_behind_reply fault seat) }
{
    match fault {
        None => seat.replied(),
        Some(_) => seat.answered(),
    }
}

/// The blocks of one entry of a terminal: that of its unit, and that of the terminal.
#[derive(Clone, Copy, Debug, PartialEq, Eq)]
pub struct Given {
    unit: Option<Block>,
    own: Option<Block>,
}

/// The blocks of an entry of the terminal, from its seat before.
pub(crate) fn seat_gives(seat: OrderSeat, terminal: u32, entry: &Event) -> Result<Given, Memory>
    ensures { IfOk result (λ given. option_to_list given.unit ++ option_to_list given.own
        ≡ seat_gives entry.now terminal seat) }
{
    match *entry {
        Event::Show { .. } | Event::Key { .. } => Ok(only(out_given(seat, terminal))),
        Event::Reply { fault, .. } => Ok(only(reply_given(seat, terminal, fault)?)),
        Event::Commit { unit, .. } => Ok(only(Some(over(terminal, unit, How::Commit)))),
        Event::Back { unit, .. } => Ok(only(Some(over(terminal, unit, How::Dropped)))),
        Event::Restart { unit, .. } => Ok(only(Some(over(terminal, unit, How::Restart)))),
        Event::End { ending, .. } => Ok(Given {
            unit: unit_left(terminal, seat.unit),
            own: Some(Block::Done(terminal, ending)),
        }),
        _ => Ok(only(None)),
    }
}

/// The block of a unit, if there is one, and none of the terminal.
fn only(block: Option<Block>) -> Given
    ensures { option_to_list result.unit ++ option_to_list result.own ≡ option_to_list block }
{
    Given {
        unit: block,
        own: None,
    }
}

/// The block of an attempt that is over in this way.
fn over(terminal: u32, unit: u32, how: How) -> Block
    ensures { result ≡ Block.Ended terminal unit how }
{
    Block::Ended {
        terminal,
        unit,
        how,
    }
}

/// The block of a SHOW or KEY.
fn out_given(seat: OrderSeat, terminal: u32) -> Option<Block>
    ensures { option_to_list result ≡ out_given terminal seat }
{
    seat.is_new().then_some(Block::Out(terminal))
}

/// The block of a REPLY.
fn reply_given(seat: OrderSeat, terminal: u32, fault: Option<u16>) -> Result<Option<Block>, Memory>
    ensures { IfOk result (λ block. option_to_list block ≡ reply_given terminal fault seat) }
{
    if fault.is_some() || seat.path.within {
        Ok(None)
    } else {
        Ok(Some(over(terminal, seat.path.unit()?, How::Commit)))
    }
}

/// The block of an open unit that is left while its attempt runs.
pub fn unit_left(terminal: u32, unit: Option<MarkedUnit>) -> Option<Block>
    ensures { option_to_list result ≡ unit_left terminal unit }
{
    match unit {
        Some(
            MarkedUnit {
                number,
                running: Some(_),
            },
        ) => Some(over(terminal, number, How::Left)),
        _ => None,
    }
}

impl Given {
    /// Puts the blocks behind others. An `Err` leaves these as they were.
    pub(crate) fn put(self, order: &mut Vec<Block>) -> Result<(), Memory>
        ensures ok { OnOk result (order.new.items
            ≡ order.old.items ++ (option_to_list self.unit ++ option_to_list self.own)) }
        ensures err { OnErr result (order.new.items ≡ order.old.items) }
    {
        order.reserve(2)?;
        if let Some(block) = self.unit {
            order.push(block).unwrap();
        }
        if let Some(block) = self.own {
            order.push(block).unwrap();
        }
        Ok(())
    }
}
