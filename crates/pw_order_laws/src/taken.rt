ghost use Rattle.std.specs.Prelude.{◌≡◌, Bool, List, ℕ};
ghost use Rattle.pw_code.specs.declared.field.ScreenTable.{ScreenTable};
ghost use Rattle.pw_code.specs.declared.lock.LockRule.{LockRule};
ghost use Rattle.pw_event.specs.declared.event.Event.{Event};
ghost use Rattle.pw_invariants.specs.Invariants.{stepped};
ghost use Rattle.pw_invariants.specs.Requests.{ServersStep, UnitsBalance, requests_of};
ghost use Rattle.pw_invariants.specs.Units.{committed_units};
ghost use Rattle.pw_onecopy.specs.Behaviour.{Behaviour};
ghost use Rattle.pw_onecopy.specs.OneCopy.{one_copy};
ghost use Rattle.pw_order_laws.specs.Clerk.{clerk_deck};
ghost use Rattle.pw_order_laws.specs.Servers.{OrderChoices, order_deck};
ghost use Rattle.pw_order_laws.specs.Stock.{TakenIsOrdered, supply, supply_behind};
ghost use Rattle.pw_paired.specs.Serial.{blocks};
ghost use Rattle.pw_paired.specs.Step.{IsRun, after};
ghost use Rattle.pw_paired.specs.Units.{committed_files};
ghost use Rattle.pw_tree_meaning.specs.OfDeck.{behaviour};
ghost use Rattle.pw_tree_meaning.specs.Sound.{IsSoundDeck};

use pw_invariants::histories::{measures_step_by_requests, measures_step_by_units};
use pw_invariants::invariants::AnyRecords;
use pw_tree_meaning::laws::deck_laws;

/// Each server of the order entry that replies, run by itself, does to the supply of items what its request says: STOCK-P takes
/// pieces out of it, ORDER-P puts those of an order into it, and a delivery, or a reply of another code than 0, leaves it.
pub fn order_servers_supply()
    ensures { (items : List ℕ → Bool) (rule : LockRule) (choices : OrderChoices)
        → ServersStep (behaviour rule (order_deck choices)) (λ records. Unit {0}) (supply items) (supply_behind items) }
{}

/// In every run of the order entry, whatever its terminals send and whatever fails: behind each entry the supply of items is the
/// initial one, changed by what the requests of the committed units have taken and ordered, and by nothing else; so it is in what a
/// report prints. Where the requests of each unit balance, what was taken is ordered.
pub fn supply_is_as_requested()
    ensures committed { (items : List ℕ → Bool) (rule : LockRule) (choices : OrderChoices) → IsSoundDeck (order_deck choices)
        → let sys : Behaviour = behaviour rule (order_deck choices) in
        (log : List Event) → IsRun sys log
        → supply items (committed_files sys (after sys log))
        ≡ stepped (λ value unit. stepped (supply_behind items) value (requests_of sys unit)) (supply items sys.records) (committed_units sys log) }
    ensures reported { (items : List ℕ → Bool) (rule : LockRule) (choices : OrderChoices) → IsSoundDeck (order_deck choices)
        → let sys : Behaviour = behaviour rule (order_deck choices) in
        (log : List Event) → IsRun sys log
        → supply items (one_copy sys (blocks sys log)).files
        ≡ stepped (λ value unit. stepped (supply_behind items) value (requests_of sys unit)) (supply items sys.records) (committed_units sys log) }
    ensures balanced { (items : List ℕ → Bool) (rule : LockRule) (choices : OrderChoices) → IsSoundDeck (order_deck choices)
        → let sys : Behaviour = behaviour rule (order_deck choices) in
        UnitsBalance sys (λ records. Unit {0}) (supply_behind items)
        → (log : List Event) → IsRun sys log → TakenIsOrdered items sys.records (committed_files sys (after sys log)) }
{
    order_servers_supply();
    measures_step_by_requests::<AnyRecords, i64>();
    measures_step_by_units::<AnyRecords, i64>();
    deck_laws();
}

/// The requests of each unit of ORDERS that runs alone and commits bring every supply back to itself: an order commits only where
/// STOCK-P has taken the pieces of each of its lines and ORDER-P has written it, and a delivery takes none.
pub fn order_units_balance()
    ensures { (items : List ℕ → Bool) (rule : LockRule) (screens : List ScreenTable) (choices : OrderChoices)
        → IsSoundDeck (clerk_deck screens choices)
        → UnitsBalance (behaviour rule (clerk_deck screens choices)) (λ records. Unit {0}) (supply_behind items) }
{
    deck_laws();
}

/// Stock taken equals orders written. The order entry of decks/applications/orders.deck, with any number of terminals that run
/// ORDERS, any screens and entries, any records and any failures: in every run, behind each entry, of each item, and of all items
/// that one asks about, the pieces at first and those delivered since are those in stock and those ordered since; so it is in what
/// a report prints.
pub fn stock_taken_is_ordered()
    ensures committed { (items : List ℕ → Bool) (rule : LockRule) (screens : List ScreenTable) (choices : OrderChoices)
        → IsSoundDeck (clerk_deck screens choices)
        → let sys : Behaviour = behaviour rule (clerk_deck screens choices) in
        (log : List Event) → IsRun sys log → TakenIsOrdered items sys.records (committed_files sys (after sys log)) }
    ensures reported { (items : List ℕ → Bool) (rule : LockRule) (screens : List ScreenTable) (choices : OrderChoices)
        → IsSoundDeck (clerk_deck screens choices)
        → let sys : Behaviour = behaviour rule (clerk_deck screens choices) in
        (log : List Event) → IsRun sys log → TakenIsOrdered items sys.records (one_copy sys (blocks sys log)).files }
{
    supply_is_as_requested();
    order_units_balance();
}
