ghost use Rattle.std.specs.Prelude.{ℕ, List, ◌++◌};
ghost use Rattle.pw_code.specs.declared.lock.LockRule.{LockRule};
ghost use Rattle.pw_event.specs.declared.event.Event.{Event};
ghost use Rattle.pw_invariants.specs.Servers.{ServersKeep};
ghost use Rattle.pw_onecopy.specs.Behaviour.{Behaviour};
ghost use Rattle.pw_onecopy.specs.OneCopy.{one_copy};
ghost use Rattle.pw_paired.specs.Serial.{blocks};
ghost use Rattle.pw_paired.specs.Step.{IsRun, after};
ghost use Rattle.pw_paired.specs.Units.{committed_files};
ghost use Rattle.pw_seat_laws.specs.Seats.{KeepsSeats};
ghost use Rattle.pw_seat_laws.specs.Servers.{SeatChoices, seat_deck};
ghost use Rattle.pw_tree_meaning.specs.OfDeck.{behaviour};
ghost use Rattle.pw_tree_meaning.specs.Sound.{IsSoundDeck};

use pw_laws::serial::laws::runs_are_serializable;
use pw_tree_meaning::laws::deck_laws;

/// Each server of the seat reservation that replies, run by itself, keeps the seats: each row of SEATS is still there, and each of
/// its seats that had a holder has the same. SALE-P gives a seat only where nobody holds it, and MAP-P only reads.
pub fn seat_servers_keep_seats()
    ensures { (rule : LockRule) (choices : SeatChoices) (before : List (List ℕ))
        → ServersKeep (behaviour rule (seat_deck choices)) (λ records. KeepsSeats before (records 0)) }
{}

/// The seat reservation of decks/applications/seats.deck, with any terminals that send whatever they like, any records and any
/// failures: in every run, from any moment on, no row of SEATS is lost, and each seat that has a holder's
/// name keeps that name. It is so from the deck's records on, also in the rows that a report prints.
pub fn sold_seats_keep_their_holders()
    ensures onwards { (rule : LockRule) (choices : SeatChoices) → IsSoundDeck (seat_deck choices)
        → let sys : Behaviour = behaviour rule (seat_deck choices) in
        (log more : List Event) → IsRun sys (log ++ more)
        → KeepsSeats (committed_files sys (after sys log) 0) (committed_files sys (after sys (log ++ more)) 0) }
    ensures committed { (rule : LockRule) (choices : SeatChoices) → IsSoundDeck (seat_deck choices)
        → let sys : Behaviour = behaviour rule (seat_deck choices) in
        (log : List Event) → IsRun sys log → KeepsSeats (sys.records 0) (committed_files sys (after sys log) 0) }
    ensures reported { (rule : LockRule) (choices : SeatChoices) → IsSoundDeck (seat_deck choices)
        → let sys : Behaviour = behaviour rule (seat_deck choices) in
        (log : List Event) → IsRun sys log → KeepsSeats (sys.records 0) ((one_copy sys (blocks sys log)).files 0) }
{
    seat_servers_keep_seats();
    runs_are_serializable();
    deck_laws();
}
