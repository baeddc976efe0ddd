ghost use Rattle.std.specs.Prelude.{List};
ghost use Rattle.pw_code.specs.declared.lock.LockRule.{LockRule};
ghost use Rattle.pw_event.specs.declared.event.Event.{Event};
ghost use Rattle.pw_invariants.specs.Servers.{ServersKeep};
ghost use Rattle.pw_onecopy.specs.Behaviour.{Behaviour};
ghost use Rattle.pw_order_laws.specs.Numbered.{IsNumbered};
ghost use Rattle.pw_order_laws.specs.Servers.{OrderChoices, order_deck};
ghost use Rattle.pw_paired.specs.Step.{IsRun, after};
ghost use Rattle.pw_paired.specs.Units.{committed_files};
ghost use Rattle.pw_tree_meaning.specs.OfDeck.{behaviour};
ghost use Rattle.pw_tree_meaning.specs.Sound.{IsSoundDeck};

use pw_invariants::invariants::{Invariant, invariants_hold_in_every_run, servers_keep_invariants};
use pw_tree_meaning::laws::deck_laws;

/// The invariant: each number up to the last one of CONTROL is the key of an order, and no other key is.
pub struct OrdersAreNumbered;

impl Invariant for OrdersAreNumbered {
    ghost holds = { IsNumbered };
}

/// Each server of the order entry that replies, run by itself, leaves the orders numbered without a gap where they are.
pub fn order_servers_keep_numbers()
    ensures { (rule : LockRule) (choices : OrderChoices) → ServersKeep (behaviour rule (order_deck choices)) IsNumbered }
{}

/// In every run of the order entry, whatever its terminals send and whatever fails: behind each entry the orders are numbered
/// without a gap, where the deck's are, as where there are none and CONTROL says 0000.
pub fn orders_are_numbered_without_a_gap()
    ensures { (rule : LockRule) (choices : OrderChoices) → IsSoundDeck (order_deck choices)
        → let sys : Behaviour = behaviour rule (order_deck choices) in
        IsNumbered sys.records → (log : List Event) → IsRun sys log → IsNumbered (committed_files sys (after sys log)) }
{
    order_servers_keep_numbers();
    invariants_hold_in_every_run::<OrdersAreNumbered>();
    servers_keep_invariants::<OrdersAreNumbered>();
    deck_laws();
}
