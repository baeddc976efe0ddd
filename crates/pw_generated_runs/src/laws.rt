ghost use Rattle.std.specs.Prelude.{◌≡◌, ◌<◌, ◌≤◌, ℕ, List, ◌∷◌, ◌++◌, Ok, Some, length, slice_get, true};
ghost use Rattle.pw_code.specs.declared.lock.LockRule.{LockRule};
ghost use Rattle.pw_compiled_deck.specs.Whole.{trees_of};
ghost use Rattle.pw_compiler_laws.specs.Systems.{system_of};
ghost use Rattle.pw_deck.specs.Deck.{deck_of};
ghost use Rattle.pw_deck.specs.declared.deck.ParsedDeck.{ParsedDeck};
ghost use Rattle.pw_event.specs.declared.event.Ending.{Ending};
ghost use Rattle.pw_event.specs.declared.event.Ending.TheVariants.{NoEntries};
ghost use Rattle.pw_event.specs.declared.event.Event.{Event};
ghost use Rattle.pw_event.specs.declared.event.Event.TheVariants.{End};
ghost use Rattle.pw_gen.specs.Generated.{generated};
ghost use Rattle.pw_generated_runs.specs.Counts.{asked_for, entry_total, stock_with};
ghost use Rattle.pw_generated_runs.specs.Finished.{LeavesCounts, counted_text, one_failure};
ghost use Rattle.pw_generated_runs.specs.Keys.{terminal_digits};
ghost use Rattle.pw_generated_runs.specs.Rounds.{CountsEntries, MayHaveEnded};
ghost use Rattle.pw_generated_runs.specs.Trees.{CountingParts, HaveEntries, counting_deck};
ghost use Rattle.pw_onecopy.specs.Behaviour.{Behaviour};
ghost use Rattle.pw_onecopy.specs.IsBehaviour.{IsBehaviour};
ghost use Rattle.pw_paired.specs.Step.{IsRun, after, is_finished};
ghost use Rattle.pw_paired.specs.Units.{committed_files};
ghost use Rattle.pw_report_text.specs.Meaning.{files_text};
ghost use Rattle.pw_tree_meaning.specs.OfDeck.{behaviour};

use pw_compiled_deck::laws::rule_laws;
use pw_laws::serial::laws::{enough_restarts_never_suspend, runs_are_serializable};

/// What runs of a deck leave that counts its entries, whatever the schedule and whatever fails. A terminal ends only where it has
/// taken all its entries, or is suspended or lost: none stops or has a run fault. Where each has taken all its entries, the
/// record of each key has the number of the entries of that key.
pub fn runs_count_entries()
    ensures endings { (sys : Behaviour) → IsBehaviour sys → (digits : ℕ → List ℕ) → CountsEntries sys digits
        → (log : List Event) → IsRun sys log → (t : ℕ) → t < sys.terminals
        → MayHaveEnded ((after sys log).terms t).ending }
    ensures records { (sys : Behaviour) → IsBehaviour sys → (digits : ℕ → List ℕ) → CountsEntries sys digits
        → (log : List Event) → IsRun sys log
        → ((t : ℕ) → t < sys.terminals → ((after sys log).terms t).ending ≡ Some NoEntries)
        → committed_files sys (after sys log) 0 ≡ stock_with (asked_for sys.terminals digits) }
{
    runs_are_serializable();
}

/// A deck of the trees that a generated deck has counts its entries: by what its requester asks on each path of rounds, and by what
/// its server does to the records, run by itself on one request.
pub fn counting_decks_count()
    ensures { (rule : LockRule) (parts : CountingParts) (digits : ℕ → List ℕ) → HaveEntries parts digits
        → ((t k d : ℕ) → slice_get (digits t) k ≡ Some d → d < 10)
        → entry_total (length parts.terminals) digits < 10000
        → CountsEntries (behaviour rule (counting_deck parts)) digits }
{}

/// What finished runs leave of a deck that counts its entries, on at most 64 terminals whose units may restart 64 times, and whose
/// one failure is of the primary of the first pair behind 200 entries of that pair. That pair is up to date by then, so that it
/// is not lost; and the restarts are enough, so that no terminal is suspended. So each terminal has taken all its entries, and the
/// record of each key has the number of the entries of that key.
pub fn finished_runs_leave_counts()
    ensures { (sys : Behaviour) → IsBehaviour sys → (digits : ℕ → List ℕ) → CountsEntries sys digits
        → sys.script ≡ one_failure → sys.terminals ≤ 64
        → ((t : ℕ) → t < sys.terminals → sys.max_restarts t ≡ 64)
        → (log : List Event) → IsRun sys log → is_finished sys (after sys log) ≡ true
        → LeavesCounts sys digits log }
{
    counting_decks_count();
    runs_are_serializable();
    enough_restarts_never_suspend();
}

/// The deck that is generated of a seed for 1 to 64 terminals counts its entries. In every run of it, under either rule of locking,
/// whatever the schedule and whenever the failure comes, each END entry is NOENTRIES: no terminal stops, has a run fault, or is
/// suspended or lost. And every finished run leaves in the record of each key the number of the entries of that key: so all
/// finished runs print the same file.
pub fn generated_runs_leave_counts()
    ensures counts { (seed terminals : ℕ) → 1 ≤ terminals → terminals ≤ 64
        → (deck : ParsedDeck) → deck_of (generated seed terminals) ≡ Ok deck → (rule : LockRule)
        → CountsEntries (behaviour rule (trees_of deck)) (terminal_digits seed) }
    ensures ends { (seed terminals : ℕ) → 1 ≤ terminals → terminals ≤ 64
        → (deck : ParsedDeck) → deck_of (generated seed terminals) ≡ Ok deck → (rule : LockRule)
        → (log : List Event) → IsRun (behaviour rule (trees_of deck)) log
        → (before behind : List Event) (t : ℕ) (ending : Ending)
        → log ≡ before ++ End t ending ∷ behind → ending ≡ NoEntries }
    ensures leaves { (seed terminals : ℕ) → 1 ≤ terminals → terminals ≤ 64
        → (deck : ParsedDeck) → deck_of (generated seed terminals) ≡ Ok deck → (rule : LockRule)
        → let sys : Behaviour = behaviour rule (trees_of deck) in
        (log : List Event) → IsRun sys log → is_finished sys (after sys log) ≡ true
        → LeavesCounts sys (terminal_digits seed) log }
    ensures prints { (seed terminals : ℕ) → 1 ≤ terminals → terminals ≤ 64
        → (deck : ParsedDeck) → deck_of (generated seed terminals) ≡ Ok deck → (rule : LockRule)
        → let sys : Behaviour = behaviour rule (trees_of deck) in
        (log : List Event) → IsRun sys log → is_finished sys (after sys log) ≡ true
        → files_text (system_of rule (trees_of deck)) sys log ≡ counted_text seed terminals }
{
    counting_decks_count();
    runs_are_serializable();
    enough_restarts_never_suspend();
    rule_laws();
}
