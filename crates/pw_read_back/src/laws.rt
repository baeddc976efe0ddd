ghost use Rattle.std.specs.Prelude.{◌≡◌, ◌≤◌, ◌++◌, ◌∷◌, [], List, Ok, length, ℕ};
ghost use Rattle.std.specs.List.{AllByRecursion};
ghost use Rattle.pw_code.specs.Limits.{most_log_lines};
ghost use Rattle.pw_code.specs.Valid.{HasNames};
ghost use Rattle.pw_code.specs.declared.lock.LockRule.{LockRule};
ghost use Rattle.pw_code.specs.declared.system.System.{System};
ghost use Rattle.pw_deck.specs.Deck.{deck_of};
ghost use Rattle.pw_deck.specs.declared.deck.ParsedDeck.{ParsedDeck};
ghost use Rattle.pw_event.specs.Line.{IsInRange, event_words};
ghost use Rattle.pw_event.specs.declared.event.Event.{Event};
ghost use Rattle.pw_event.specs.declared.script.FailLine.{FailLine};
ghost use Rattle.pw_code_meaning.specs.OfSystem.{behaviour};
ghost use Rattle.pw_report_text.specs.Meaning.{report_text};
ghost use Rattle.pw_report_text.specs.ReadBack.{AreLines, behind_log, header_lines, last_words, lines_of, numbered_entry_lines};
ghost use Rattle.pw_paired.specs.Step.{IsRun, after, is_finished};
ghost use Rattle.pw_compiler_laws.specs.Systems.{system_of};
ghost use Rattle.pw_tree_meaning.specs.OfDeck as tree;
ghost use Rattle.pw_read_back.specs.ReadFrom.{IsReadFrom};
ghost use Rattle.pw_read_back.specs.Runs.{IsRunOf};
ghost use Rattle.pw_compiled_deck.specs.Short.{IsSmall};
ghost use Rattle.pw_compiled_deck.specs.Whole.{compiled, trees_of};

use pw_event::laws::line_laws;

/// In every run of a deck of at most 500,000 entries each number of an entry is one that a log line
/// may tell (docs/reference/DECK.md): unit numbers, refreshes and keys by the length of the log, restarts by
/// MAXTMFRESTARTS, statuses and run faults by the programs, failure lines by the script.
pub fn numbers_are_in_range()
    ensures { (system : System) (script : List FailLine) (log : List Event) → IsRunOf system script log
        → AllByRecursion (λ entry. AllByRecursion IsInRange (event_words system.rule entry)) log }
{}

/// In every such run each entry is one line. So the lines behind the last line LOG of its report are
/// the header, its numbered lines and the last line.
pub fn runs_are_lines()
    ensures each { (system : System) (script : List FailLine) (log : List Event)
        → IsRunOf system script log → AreLines system log }
    ensures behind { (system : System) (script : List FailLine) (log : List Event)
        → IsRunOf system script log
        → behind_log (lines_of (report_text system (behaviour script system) log))
        ≡ header_lines system.rule ++ (numbered_entry_lines system 1 log
        ++ last_words (is_finished (behaviour script system) (after (behaviour script system) log)) ∷ []) }
{}

/// Every such run is read back from the text of its report, line by line, as `read_event` reads them;
/// and at most one log is read from a text. So runs of one text are one run.
pub fn runs_are_read_back()
    ensures read { (system : System) (script : List FailLine) (log : List Event)
        → IsRunOf system script log
        → IsReadFrom system (report_text system (behaviour script system) log) log }
    ensures one { (system : System) (text : List ℕ) (log other : List Event) → HasNames system
        → IsReadFrom system text log → IsReadFrom system text other → log ≡ other }
    ensures same { (system : System) (script lines : List FailLine) (log other : List Event)
        → IsRunOf system script log → IsRunOf system lines other
        → report_text system (behaviour script system) log
        ≡ report_text system (behaviour lines system) other → log ≡ other }
{
    line_laws();
}

/// The same of every deck without a fault, by the trees of its programs, under either rule of locking.
/// Its codes and screens are not too many for their numbers, which is so wherever `read` gives them.
pub fn decks_are_read_back()
    ensures { (rule : LockRule) (bytes : List ℕ) (deck : ParsedDeck) → deck_of bytes ≡ Ok deck
        → IsSmall (compiled deck).system
        → (log : List Event) → IsRun (tree.behaviour rule (trees_of deck)) log
        → length log ≤ most_log_lines
        → IsReadFrom (system_of rule (trees_of deck))
        (report_text (system_of rule (trees_of deck)) (tree.behaviour rule (trees_of deck)) log) log }
{}
