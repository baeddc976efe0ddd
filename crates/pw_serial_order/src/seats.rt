ghost use Rattle.std.specs.Prelude.{◌≡◌, ◌+◌, ◌≤◌, ◌<◌, ◌++◌, ◌^◌, [], length, map, slice_get, slice_set, true, Some, IfOk, OnOk, OnErr, vec_len, vec_capacity, if◌then◌else◌};
ghost use Rattle.pw_serial_order.specs.Entries.{all_left, left_at, seats_behind, terminal_gives, terminal_in};
ghost use Rattle.pw_serial_order.specs.Pairs.{is_seat_of_pair, is_of, lacks, of_pair, seat_behind_loss};
ghost use Rattle.pw_serial_order.specs.Seats.{new_seat, resumed, without_memory};

use crate::block::Block;
use crate::entry::{seat_behind, seat_gives, terminal_in, unit_left};
use crate::pair::{Loss, OrderMode};
use crate::seat::OrderSeat;
use pw_base::memory::Memory;
use pw_code::system::System;
use pw_event::event::Event;
use std::alloc::Global;

/// The seats of a system's terminals before the first entry.
pub fn seats_of(alloc: Global, system: &System) -> Result<Vec<OrderSeat>, Memory>
    ensures { IfOk result (λ seats. seats.items
        ≡ map (λ terminal. new_seat terminal.tcp) system.now.terminals) }
{
    let mut seats = Vec::new(alloc);
    for terminal in system.terminals.as_slice() {
        seats.push(OrderSeat::new(terminal.tcp))?;
    }
    Ok(seats)
}

/// The modes of a system's pairs before the first entry.
pub fn modes_of(alloc: Global, system: &System) -> Result<Vec<OrderMode>, Memory>
    ensures { IfOk result (λ modes. modes.items ≡ map (λ name. OrderMode.Alone) system.now.tcps) }
{
    let mut modes = Vec::new(alloc);
    for name in system.tcps.as_slice() {
        modes.push(OrderMode::of(name))?;
    }
    Ok(modes)
}

/// Whether the backup of the pair lacks a live terminal.
pub fn lacks(seats: &[OrderSeat], tcp: u32) -> bool
    ensures { result ≡ lacks tcp seats.now }
{
    seats
        .iter()
        .any(|seat| seat.tcp == tcp && seat.is_lacking())
}

/// Reads an entry of a terminal, or one that reads as nothing, and puts its blocks behind others. An
/// `Err` leaves both as they were.
pub fn read_seat(
    seats: &mut Vec<OrderSeat>,
    entry: &Event,
    one_send: bool,
    order: &mut Vec<Block>,
) -> Result<(), Memory>
    ensures kept { OnOk result (seats.new.items
        ≡ seats_behind one_send entry.now (terminal_in entry.now) seats.old.items) }
    ensures order { OnOk result (order.new.items
        ≡ order.old.items ++ terminal_gives entry.now (terminal_in entry.now) seats.old.items) }
    ensures err { OnErr result ((seats.new.items ≡ seats.old.items)
        × (order.new.items ≡ order.old.items)) }
{
    let Some(terminal) = terminal_in(entry) else {
        return Ok(());
    };
    let Some(seat) = seat_at(seats.as_slice(), terminal) else {
        return Ok(());
    };
    let next = seat_behind(seat, entry, one_send)?;
    seat_gives(seat, terminal, entry)?.put(order)?;
    put_seat(seats, terminal, next);
    Ok(())
}

/// The seat of a terminal, None exactly where none is kept.
fn seat_at(seats: &[OrderSeat], terminal: u32) -> Option<OrderSeat>
    ensures { result ≡ slice_get seats.now terminal }
{
    seats.get(terminal as usize).copied()
}

/// Puts the seat of a terminal in place of the one that is kept.
fn put_seat(seats: &mut Vec<OrderSeat>, terminal: u32, seat: OrderSeat)
    requires { terminal < length seats.old.items }
    ensures { seats.new.items ≡ slice_set seats.old.items terminal seat }
{
    seats[terminal as usize] = seat;
}

/// Changes the seats of a pair by a loss.
pub fn lose(seats: &mut Vec<OrderSeat>, tcp: u32, loss: Loss)
    ensures { seats.new.items ≡ of_pair tcp (seat_behind_loss loss) seats.old.items }
{
    for seat in seats.iter_mut() {
        lose_one(seat, tcp, loss);
    }
}

/// Changes a seat by a loss where it is of the pair.
fn lose_one(seat: &mut OrderSeat, tcp: u32, loss: Loss)
    ensures { seat.new ≡ (if is_of tcp seat.old then seat_behind_loss loss seat.old else seat.old) }
{
    if seat.tcp == tcp {
        *seat = loss.of_seat(*seat);
    }
}

/// Lets the backup of a pair take over.
pub fn take_over(seats: &mut Vec<OrderSeat>, tcp: u32)
    ensures { seats.new.items ≡ of_pair tcp resumed seats.old.items }
{
    for seat in seats.iter_mut() {
        resume_one(seat, tcp);
    }
}

/// A seat goes on behind a takeover where it is of the pair.
fn resume_one(seat: &mut OrderSeat, tcp: u32)
    ensures { seat.new ≡ (if is_of tcp seat.old then resumed seat.old else seat.old) }
{
    if seat.tcp == tcp {
        *seat = seat.resumed();
    }
}

/// Empties what the backup of a pair holds.
pub fn empty_memory(seats: &mut Vec<OrderSeat>, tcp: u32)
    ensures { seats.new.items ≡ of_pair tcp without_memory seats.old.items }
{
    for seat in seats.iter_mut() {
        empty_one(seat, tcp);
    }
}

/// Empties what the backup holds of a terminal where it is of the pair.
fn empty_one(seat: &mut OrderSeat, tcp: u32)
    ensures { seat.new ≡ (if is_of tcp seat.old then without_memory seat.old else seat.old) }
{
    if seat.tcp == tcp {
        *seat = seat.without_memory();
    }
}

/// Whether the seat is of a terminal of this pair, or of any.
fn is_among(seat: OrderSeat, tcp: Option<u32>) -> bool
    ensures { result ≡ is_seat_of_pair tcp seat }
{
    tcp.is_none_or(|tcp| seat.tcp == tcp)
}

/// Puts a block behind others for each attempt that runs, of a pair or of all, in the order of
/// terminals. An `Err` leaves these as they were.
pub fn put_left(seats: &[OrderSeat], tcp: Option<u32>, order: &mut Vec<Block>) -> Result<(), Memory>
    ensures ok { OnOk result (order.new.items
        ≡ order.old.items ++ all_left (is_seat_of_pair tcp) seats.now) }
    ensures err { OnErr result (order.new.items ≡ order.old.items) }
{
    let count = u32::try_from(seats.len()).map_err(|_| Memory)?;
    order.reserve(seats.len())?;
    for terminal in 0..count {
        put_one(seat_at(seats, terminal), terminal, tcp, order);
    }
    Ok(())
}

/// Puts the block of a terminal behind others, for which there is room, where it has one.
fn put_one(seat: Option<OrderSeat>, terminal: u32, tcp: Option<u32>, order: &mut Vec<Block>)
    requires { vec_len order.old + 1 ≤ vec_capacity order.old }
    ensures block { order.new.items ≡ order.old.items ++ left_at (is_seat_of_pair tcp) terminal seat }
    ensures len { vec_len order.new ≤ vec_len order.old + 1 }
    ensures capacity { vec_capacity order.old ≤ vec_capacity order.new }
{
    let Some(seat) = seat else {
        return;
    };
    if !is_among(seat, tcp) {
        return;
    }
    if let Some(block) = unit_left(terminal, seat.unit) {
        order.push(block).unwrap();
    }
}
