ghost use Rattle.std.specs.Prelude.{◌≡◌, ◌⊎◌, List, ℕ, Result, Ok, Err};
ghost use Rattle.pw_code.specs.Limits.{most_fail_lines, most_after};
ghost use Rattle.pw_code.specs.Valid.{HasNames};
ghost use Rattle.pw_code.specs.declared.system.System.{System};
ghost use Rattle.pw_event.specs.Reading.{IsLine, IsLineOf, ReadsEventLine};
ghost use Rattle.pw_event.specs.Fails.{IsFailLine, IsFailLineOf, ReadsFail};
ghost use Rattle.pw_event.specs.declared.event.Event.{Event};
ghost use Rattle.pw_event.specs.declared.script.FailLine.{FailLine};
ghost use Rattle.pw_event.specs.declared.fault.EventFault.{EventFault};
ghost use Rattle.pw_event.specs.declared.fault.EventFault.TheVariants.{Memory};

use crate::script::{MAX_AFTER, MAX_FAIL_LINES};

/// The constants are the numbers of the table of limits (docs/reference/DECK.md).
pub fn limit_laws()
    ensures lines { MAX_FAIL_LINES ≡ most_fail_lines }
    ensures after { MAX_AFTER ≡ most_after }
{}

/// What lines say of entries, in a system whose names are names: the line of an entry is one of the grammar, two
/// entries with one line are one, and the line of an entry is read as that entry wherever memory is left.
pub fn line_laws()
    ensures grammar { (system : System) (line : List ℕ) (event : Event) → HasNames system
        → IsLineOf system line event → IsLine system.rule line }
    ensures one { (system : System) (line : List ℕ) (a b : Event) → HasNames system
        → IsLineOf system line a → IsLineOf system line b → a ≡ b }
    ensures read { (system : System) (line : List ℕ) (event : Event) (result : Result Event EventFault)
        → HasNames system → IsLineOf system line event → ReadsEventLine system line result
        → (result ≡ Ok event) ⊎ (result ≡ Err Memory) }
{}

/// The same of failure lines, whose names may stand in either case.
pub fn fail_line_laws()
    ensures grammar { (system : System) (line : List ℕ) (fail : FailLine) → HasNames system
        → IsFailLineOf system line fail → IsFailLine line }
    ensures one { (system : System) (line : List ℕ) (a b : FailLine) → HasNames system
        → IsFailLineOf system line a → IsFailLineOf system line b → a ≡ b }
    ensures read { (system : System) (line : List ℕ) (fail : FailLine) (result : Result FailLine EventFault)
        → HasNames system → IsFailLineOf system line fail → ReadsFail system line result
        → (result ≡ Ok fail) ⊎ (result ≡ Err Memory) }
{}
