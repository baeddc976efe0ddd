ghost use Rattle.std.specs.Prelude.{◌≡◌, ℕ, List, ◌++◌, false, true, length, Some};
ghost use Rattle.pw_code.specs.declared.lock.LockRule.{LockRule};
ghost use Rattle.pw_event.specs.declared.event.Event.{Event};
ghost use Rattle.pw_files.specs.Records.{has_key, record_at};
ghost use Rattle.pw_invariants.specs.Bank.{BankParts, account_text, bank_deck, paragraphs_in, total_text};
ghost use Rattle.pw_invariants.specs.Operations.{only_adds, servers_operate_only, takes_none};
ghost use Rattle.pw_onecopy.specs.Behaviour.{Behaviour};
ghost use Rattle.pw_paired.specs.Step.{IsRun, after};
ghost use Rattle.pw_paired.specs.Units.{committed_files};
ghost use Rattle.pw_tree_meaning.specs.OfDeck.{behaviour};
ghost use Rattle.pw_tree_meaning.specs.Sound.{IsSoundDeck};

use crate::files::{files_are_as_servers_use_them, servers_use_files_as_their_statements_say};
use pw_tree_meaning::laws::deck_laws;

/// The texts of the bank's servers are read, and the tests of statements pass of its files, and fail where they should: the
/// servers only add to STATEMENTS, and take nothing away from ACCOUNTS, to which they do more than add.
pub fn bank_servers_use_its_files_so()
    ensures account { length (paragraphs_in account_text) ≡ 4 }
    ensures total { length (paragraphs_in total_text) ≡ 2 }
    ensures statements { (bank : BankParts) → servers_operate_only (bank_deck bank) 1 only_adds ≡ true }
    ensures accounts { (bank : BankParts) → servers_operate_only (bank_deck bank) 0 takes_none ≡ true }
    ensures changed { (bank : BankParts) → servers_operate_only (bank_deck bank) 0 only_adds ≡ false }
{}

/// The bank of decks/applications/bank.deck, with any terminals, records and failures: in every run no line of a statement is
/// changed or lost once it has committed, and no account is gone.
pub fn bank_statements_stay()
    ensures statements { (rule : LockRule) (bank : BankParts) → IsSoundDeck (bank_deck bank)
        → let sys : Behaviour = behaviour rule (bank_deck bank) in
        (log more : List Event) → IsRun sys (log ++ more) → (key line : List ℕ)
        → record_at (sys.key_length 1) (committed_files sys (after sys log) 1) key ≡ Some line
        → record_at (sys.key_length 1) (committed_files sys (after sys (log ++ more)) 1) key ≡ Some line }
    ensures accounts { (rule : LockRule) (bank : BankParts) → IsSoundDeck (bank_deck bank)
        → let sys : Behaviour = behaviour rule (bank_deck bank) in
        (log more : List Event) → IsRun sys (log ++ more) → (key : List ℕ)
        → has_key (sys.key_length 0) (committed_files sys (after sys log) 0) key ≡ true
        → has_key (sys.key_length 0) (committed_files sys (after sys (log ++ more)) 0) key ≡ true }
{
    bank_servers_use_its_files_so();
    files_are_as_servers_use_them();
    servers_use_files_as_their_statements_say();
    deck_laws();
}
