ghost use Rattle.std.specs.Prelude.{◌≡◌, List};
ghost use Rattle.pw_bank_laws.specs.Balances.{posted, sum_of_balances};
ghost use Rattle.pw_bank_laws.specs.Servers.{BankChoices, whole_bank};
ghost use Rattle.pw_bank_laws.specs.Teller.{teller_bank};
ghost use Rattle.pw_code.specs.declared.field.ScreenTable.{ScreenTable};
ghost use Rattle.pw_code.specs.declared.lock.LockRule.{LockRule};
ghost use Rattle.pw_event.specs.declared.event.Event.{Event};
ghost use Rattle.pw_invariants.specs.Invariants.{stepped};
ghost use Rattle.pw_invariants.specs.Requests.{ServersStep, UnitsBalance, requests_of};
ghost use Rattle.pw_invariants.specs.Units.{committed_units};
ghost use Rattle.pw_onecopy.specs.Behaviour.{Behaviour};
ghost use Rattle.pw_onecopy.specs.OneCopy.{one_copy};
ghost use Rattle.pw_paired.specs.Serial.{blocks};
ghost use Rattle.pw_paired.specs.Step.{IsRun, after};
ghost use Rattle.pw_paired.specs.Units.{committed_files};
ghost use Rattle.pw_tree_meaning.specs.OfDeck.{behaviour};
ghost use Rattle.pw_tree_meaning.specs.Sound.{IsSoundDeck};

use pw_invariants::histories::{measures_step_by_requests, measures_step_by_units};
use pw_invariants::invariants::AnyRecords;
use pw_tree_meaning::laws::deck_laws;

/// Each server of the bank that replies, run by itself, changes the sum of the balances as its request says: ACCOUNT-P by the
/// amount of a "P" that it answers with code 0, and by nothing else, and TOTAL-P not at all.
pub fn bank_servers_step()
    ensures { (rule : LockRule) (bank : BankChoices)
        → ServersStep (behaviour rule (whole_bank bank)) (λ records. Unit {0}) sum_of_balances posted }
{}

/// In every run of the bank, whatever its terminals send, whatever the schedule and whatever fails: behind each entry the sum of
/// all balances is the initial one, changed by the amounts that the requests of the committed units have posted, and by nothing
/// else; so are the balances that a report prints. Where the postings of each unit balance, the sum is the initial one.
pub fn bank_sums_are_as_posted()
    ensures committed { (rule : LockRule) (bank : BankChoices) → IsSoundDeck (whole_bank bank)
        → let sys : Behaviour = behaviour rule (whole_bank bank) in
        (log : List Event) → IsRun sys log
        → sum_of_balances (committed_files sys (after sys log))
        ≡ stepped (λ sum unit. stepped posted sum (requests_of sys unit)) (sum_of_balances sys.records) (committed_units sys log) }
    ensures reported { (rule : LockRule) (bank : BankChoices) → IsSoundDeck (whole_bank bank)
        → let sys : Behaviour = behaviour rule (whole_bank bank) in
        (log : List Event) → IsRun sys log
        → sum_of_balances (one_copy sys (blocks sys log)).files
        ≡ stepped (λ sum unit. stepped posted sum (requests_of sys unit)) (sum_of_balances sys.records) (committed_units sys log) }
    ensures balanced { (rule : LockRule) (bank : BankChoices) → IsSoundDeck (whole_bank bank)
        → let sys : Behaviour = behaviour rule (whole_bank bank) in
        UnitsBalance sys (λ records. Unit {0}) posted
        → (log : List Event) → IsRun sys log
        → sum_of_balances (committed_files sys (after sys log)) ≡ sum_of_balances sys.records }
{
    bank_servers_step();
    measures_step_by_requests::<AnyRecords, i64>();
    measures_step_by_units::<AnyRecords, i64>();
    deck_laws();
}

/// The requests of each unit of TELLER that runs alone and commits bring every sum back to itself: a transfer commits only where
/// both its postings have code 0, and these are of an amount and of its negative; an inquiry and a total post nothing.
pub fn bank_units_balance()
    ensures { (rule : LockRule) (screens : List ScreenTable) (bank : BankChoices) → IsSoundDeck (teller_bank screens bank)
        → UnitsBalance (behaviour rule (teller_bank screens bank)) (λ records. Unit {0}) posted }
{
    deck_laws();
}

/// The bank of decks/applications/bank.deck, with any number of terminals that run TELLER, any screens and entries, any records and
/// any failures: in every run, behind each entry, the sum of all balances is the initial one; so is that of the balances that a
/// report prints.
pub fn bank_sum_stays()
    ensures committed { (rule : LockRule) (screens : List ScreenTable) (bank : BankChoices) → IsSoundDeck (teller_bank screens bank)
        → let sys : Behaviour = behaviour rule (teller_bank screens bank) in
        (log : List Event) → IsRun sys log
        → sum_of_balances (committed_files sys (after sys log)) ≡ sum_of_balances sys.records }
    ensures reported { (rule : LockRule) (screens : List ScreenTable) (bank : BankChoices) → IsSoundDeck (teller_bank screens bank)
        → let sys : Behaviour = behaviour rule (teller_bank screens bank) in
        (log : List Event) → IsRun sys log
        → sum_of_balances (one_copy sys (blocks sys log)).files ≡ sum_of_balances sys.records }
{
    bank_sums_are_as_posted();
    bank_units_balance();
}
