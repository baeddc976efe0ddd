ghost use Rattle.std.specs.Prelude.{◌≡◌, ℕ, ◌<◌, ◌≤◌, List, [], length, Ok};
ghost use Rattle.pw_code.specs.declared.file.FileCall.{FileCall};
ghost use Rattle.pw_code.specs.declared.lock.LockRule.{LockRule};
ghost use Rattle.pw_code.specs.declared.verb.Verb.TheVariants as verb;
ghost use Rattle.pw_event.specs.declared.event.Event.{Event};
ghost use Rattle.pw_onecopy.specs.Path.{FileResult};
ghost use Rattle.pw_paired.specs.Step.{IsRun};
ghost use Rattle.pw_tree_meaning.specs.OfDeck.{behaviour, ops};
ghost use Rattle.pw_tree_meaning.specs.Program.{DeckModel};
ghost use Rattle.pw_tree_meaning.specs.Sound.{IsSoundDeck};
ghost use Rattle.pw_tree_meaning.specs.State.{most_counted};
ghost use Rattle.pw_run_bounds.specs.Bound.{IsServedFrom, ProgramsEnd, run_bound};
ghost use Rattle.pw_deck_bounds.specs.Paces.{programs_end};

use pw_run_bounds::laws::runs_are_bounded;
use pw_tree_meaning::laws::deck_laws;

/// In every deck, whatever its programs are, a server's run has no more operations than statements that it may count.
pub fn servers_end()
    ensures { (rule : LockRule) (deck : DeckModel) (c : ℕ) (message : List ℕ) (done : List FileResult) (call : FileCall)
        → IsServedFrom (behaviour rule deck) c message [] done → ops deck c message done ≡ verb.File call
        → length done < most_counted }
{}

/// Where the test of a deck tells a number, no path of a terminal has more answers, and so the deck's programs end.
pub fn tested_decks_end()
    ensures { (rule : LockRule) (deck : DeckModel) (n : ℕ) → programs_end deck ≡ Ok n
        → ProgramsEnd (behaviour rule deck) n most_counted }
{}

/// So no run of a deck without a fault is longer than its bound, where the test tells a number.
pub fn tested_decks_are_bounded()
    ensures { (rule : LockRule) (deck : DeckModel) → IsSoundDeck deck → (n : ℕ) → programs_end deck ≡ Ok n
        → (log : List Event) → IsRun (behaviour rule deck) log
        → length log ≤ run_bound (behaviour rule deck) n most_counted }
{
    deck_laws();
    runs_are_bounded();
    tested_decks_end();
}
