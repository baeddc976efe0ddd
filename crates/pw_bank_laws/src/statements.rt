ghost use Rattle.std.specs.Prelude.{◌≡◌, List, ℕ};
ghost use Rattle.pw_bank_laws.specs.Servers.{BankChoices, whole_bank};
ghost use Rattle.pw_bank_laws.specs.Statements.{untold};
ghost use Rattle.pw_code.specs.declared.lock.LockRule.{LockRule};
ghost use Rattle.pw_event.specs.declared.event.Event.{Event};
ghost use Rattle.pw_onecopy.specs.Behaviour.{Behaviour};
ghost use Rattle.pw_paired.specs.Step.{IsRun, after};
ghost use Rattle.pw_paired.specs.Units.{committed_files};
ghost use Rattle.pw_tree_meaning.specs.OfDeck.{behaviour};
ghost use Rattle.pw_tree_meaning.specs.Sound.{IsSoundDeck};

use pw_invariants::histories::measures_step_by_requests;
use pw_invariants::invariants::AnyRecords;
use pw_tree_meaning::laws::deck_laws;

/// In every run of the bank, whatever its terminals send and whatever fails: behind each entry the balance of each account has
/// changed by what the lines of its statement tell, and by nothing else.
pub fn bank_statements_tell_balances()
    ensures { (rule : LockRule) (bank : BankChoices) → IsSoundDeck (whole_bank bank)
        → let sys : Behaviour = behaviour rule (whole_bank bank) in
        (account : List ℕ) (log : List Event) → IsRun sys log
        → untold account (committed_files sys (after sys log)) ≡ untold account sys.records }
{
    measures_step_by_requests::<AnyRecords, i64>();
    deck_laws();
}
