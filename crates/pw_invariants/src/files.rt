ghost use Rattle.std.specs.Prelude.{◌≡◌, ℕ, List, ◌++◌, Bool, true, Some};
ghost use Rattle.pw_code.specs.declared.file.FileOp.{FileOp};
ghost use Rattle.pw_code.specs.declared.lock.LockRule.{LockRule};
ghost use Rattle.pw_event.specs.declared.event.Event.{Event};
ghost use Rattle.pw_files.specs.Records.{has_key, record_at};
ghost use Rattle.pw_invariants.specs.Operations.{AsksOnly, only_adds, only_reads, servers_operate_only, takes_none};
ghost use Rattle.pw_onecopy.specs.Behaviour.{Behaviour};
ghost use Rattle.pw_onecopy.specs.IsBehaviour.{IsBehaviour};
ghost use Rattle.pw_paired.specs.Step.{IsRun, after};
ghost use Rattle.pw_paired.specs.Units.{committed_files};
ghost use Rattle.pw_tree_meaning.specs.OfDeck.{behaviour};
ghost use Rattle.pw_tree_meaning.specs.Program.{DeckModel};
ghost use Rattle.pw_tree_meaning.specs.Sound.{IsSoundDeck};

use pw_laws::serial::laws::runs_are_serializable;

/// What holds of a file by the operations that servers ask of it, in every run and whatever fails. A file that they only read
/// stays as the deck has it. In one to which they only add, a record that was committed stays as it is. In one of which they take
/// no record away, a key that was committed stays.
pub fn files_are_as_servers_use_them()
    ensures read { (sys : Behaviour) → IsBehaviour sys → (f : ℕ) → AsksOnly sys f only_reads
        → (log : List Event) → IsRun sys log → committed_files sys (after sys log) f ≡ sys.records f }
    ensures added { (sys : Behaviour) → IsBehaviour sys → (f : ℕ) → AsksOnly sys f only_adds
        → (log more : List Event) → IsRun sys (log ++ more) → (key content : List ℕ)
        → record_at (sys.key_length f) (committed_files sys (after sys log) f) key ≡ Some content
        → record_at (sys.key_length f) (committed_files sys (after sys (log ++ more)) f) key ≡ Some content }
    ensures kept { (sys : Behaviour) → IsBehaviour sys → (f : ℕ) → AsksOnly sys f takes_none
        → (log more : List Event) → IsRun sys (log ++ more) → (key : List ℕ)
        → has_key (sys.key_length f) (committed_files sys (after sys log) f) key ≡ true
        → has_key (sys.key_length f) (committed_files sys (after sys (log ++ more)) f) key ≡ true }
{
    runs_are_serializable();
}

/// The servers of a deck ask no other operations of a file than those of their statements.
pub fn servers_use_files_as_their_statements_say()
    ensures { (rule : LockRule) (deck : DeckModel) → IsSoundDeck deck → (f : ℕ) (may : FileOp → Bool)
        → servers_operate_only deck f may ≡ true → AsksOnly (behaviour rule deck) f may }
{}
