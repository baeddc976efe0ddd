ghost use Rattle.std.specs.Prelude.{List};
ghost use Rattle.pw_bank_laws.specs.Accounts.{AreAccounts};
ghost use Rattle.pw_bank_laws.specs.Servers.{BankChoices, whole_bank};
ghost use Rattle.pw_code.specs.declared.lock.LockRule.{LockRule};
ghost use Rattle.pw_event.specs.declared.event.Event.{Event};
ghost use Rattle.pw_invariants.specs.Servers.{ServersKeep};
ghost use Rattle.pw_onecopy.specs.Behaviour.{Behaviour};
ghost use Rattle.pw_paired.specs.Step.{IsRun, after};
ghost use Rattle.pw_paired.specs.Units.{committed_files};
ghost use Rattle.pw_tree_meaning.specs.OfDeck.{behaviour};
ghost use Rattle.pw_tree_meaning.specs.Sound.{IsSoundDeck};

use pw_invariants::invariants::{Invariant, invariants_hold_in_every_run, servers_keep_invariants};
use pw_tree_meaning::laws::deck_laws;

/// The invariant: each record of ACCOUNTS has 27 characters, and its balance and its number of lines are digits.
pub struct AccountsHaveTheirForm;

impl Invariant for AccountsHaveTheirForm {
    ghost holds = { AreAccounts };
}

/// Each server of the bank that replies, run by itself, leaves the records of ACCOUNTS in their form.
pub fn bank_servers_keep_accounts()
    ensures { (rule : LockRule) (bank : BankChoices) → ServersKeep (behaviour rule (whole_bank bank)) AreAccounts }
{}

/// In every run of the bank, whatever its terminals send and whatever fails: behind each entry the records of ACCOUNTS have their
/// form, where the deck's have it. So each balance is a number of cents that is not below zero.
pub fn bank_accounts_keep_their_form()
    ensures { (rule : LockRule) (bank : BankChoices) → IsSoundDeck (whole_bank bank)
        → let sys : Behaviour = behaviour rule (whole_bank bank) in
        AreAccounts sys.records → (log : List Event) → IsRun sys log → AreAccounts (committed_files sys (after sys log)) }
{
    bank_servers_keep_accounts();
    invariants_hold_in_every_run::<AccountsHaveTheirForm>();
    servers_keep_invariants::<AccountsHaveTheirForm>();
    deck_laws();
}
