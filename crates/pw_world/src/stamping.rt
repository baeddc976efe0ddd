//! The books of a world with one more entry, and the stamps of the actors whose state it changes.

ghost use Rattle.std.specs.Prelude.{◌≡◌, ◌-◌, ◌^◌, ◌<◌, ◌≤◌, All, length, map, true};
ghost use Rattle.pw_world_store.specs.Keeps.{kept_in};
ghost use Rattle.pw_world.specs.Bookings.{IsBooked, stamped_each, owner_pair_turned, turned_pair};
ghost use Rattle.pw_world.specs.Ledgers.{IsNoted, ends};
ghost use Rattle.pw_world_model.specs.Dues.{IsOwner, count_of};
ghost use Rattle.pw_world_model.specs.Touches.{is_same_mode};
ghost use Rattle.pw_actor_queue.specs.Places.{is_placed, notes_in};
ghost use Rattle.pw_actor_queue.specs.declared.actor.Actor.TheVariants as actor;

use crate::booking::Booking;
use crate::calling::call_behind;
use crate::ledger::Ledger;
use pw_actor_queue::actor::Actor;
use pw_event::event::Event;
use pw_event::script::Owner;
use pw_pair::mode::Mode;
use pw_pair::pair::Pair;
use pw_pair::seat::BackupSeat;
use pw_tmf::disc::Disc;
use pw_world_store::keep::Keep;

/// Takes an entry into the books, where this is kept behind it.
pub fn book<D: Disc>(ledger: &mut Ledger, keep: &Keep<D>, entry: &Event, booking: Booking)
    requires spare { ledger.old.spare ≡ true }
    requires pair { IsOwner (length keep.now.system.tcps) (length keep.now.system.classes)
        booking.owner }
    requires owner { IsOwner (length ledger.old.due.tcps) (length ledger.old.due.classes)
        booking.owner }
    requires few { count_of ledger.old.due booking.owner < 2 ^ 64 - 1 }
    requires live { ends entry.now ≡ true → 1 ≤ ledger.old.live }
    requires placed { All (λ one. is_placed one ≡ true) booking.touched.items }
    ensures { IsBooked (kept_in D.told keep.now) entry.now booking ledger.old ledger.new }
{
    let Booking {
        owner,
        one_send,
        refresh,
        touched,
        mode,
    } = booking;
    ledger.push(entry, owner, one_send, refresh);
    stamp_each(ledger, &touched);
    stamp_turned(ledger, keep, owner, mode);
    ledger.mark_all();
    call_behind(ledger, keep, entry, &touched);
}

/// The state of each of these actors changes by the last entry.
fn stamp_each(ledger: &mut Ledger, actors: &[Actor])
    requires { All (λ one. is_placed one ≡ true) actors.now }
    ensures notes { notes_in ledger.new.notes
        ≡ stamped_each actors.now (length ledger.old.log) (notes_in ledger.old.notes) }
    ensures rest { IsNoted ledger.old ledger.new }
{
    for one in actors {
        ledger.stamp(*one);
    }
}

/// The state of the pair of an owner and of its terminals changes by the last entry, where the pair's
/// mode is no more this one.
fn stamp_turned<D: Disc>(ledger: &mut Ledger, keep: &Keep<D>, owner: Owner, mode: Option<Mode>)
    requires { IsOwner (length keep.now.system.tcps) (length keep.now.system.classes) owner }
    ensures notes { notes_in ledger.new.notes
        ≡ stamped_each (owner_pair_turned (kept_in D.told keep.now) owner mode) (length ledger.old.log)
        (notes_in ledger.old.notes) }
    ensures rest { IsNoted ledger.old ledger.new }
{
    match owner {
        Owner::Tcp(tcp) => match mode {
            Some(mode) => {
                keep.known_parts();
                stamp_pair(ledger, tcp, keep.pair(tcp), mode);
            }
            None => {}
        },
        Owner::Class(_) => {}
    }
}

/// The state of a pair and of its terminals changes by the last entry, where the pair's mode is no
/// more this one.
fn stamp_pair(ledger: &mut Ledger, tcp: u32, pair: &Pair, mode: Mode)
    requires pair { is_placed (actor.Pair tcp) ≡ true }
    requires members { All (λ seat. is_placed (actor.Terminal seat.terminal) ≡ true) pair.now.seats }
    ensures notes { notes_in ledger.new.notes
        ≡ stamped_each (turned_pair tcp mode pair.now) (length ledger.old.log)
        (notes_in ledger.old.notes) }
    ensures rest { IsNoted ledger.old ledger.new }
{
    if !is_same_mode(mode, pair.mode()) {
        ledger.stamp_called(Actor::Pair(tcp));
        stamp_members(ledger, pair.seats());
    }
}

/// The state of the terminals of a pair changes by the last entry.
fn stamp_members(ledger: &mut Ledger, seats: &[BackupSeat])
    requires { All (λ seat. is_placed (actor.Terminal seat.terminal) ≡ true) seats.now }
    ensures notes { notes_in ledger.new.notes
        ≡ stamped_each (map (λ seat. actor.Terminal seat.terminal) seats.now) (length ledger.old.log)
        (notes_in ledger.old.notes) }
    ensures rest { IsNoted ledger.old ledger.new }
{
    for seat in seats {
        ledger.stamp_called(Actor::Terminal(seat.terminal));
    }
}

/// Whether two modes are one.
fn is_same_mode(one: Mode, other: Mode) -> bool
    ensures { result ≡ is_same_mode one other }
{
    one == other
}
