ghost use Rattle.std.specs.Prelude.{ℕ, ◌<◌, List, length};
ghost use Rattle.pw_code.specs.declared.lock.LockRule.{LockRule};
ghost use Rattle.pw_invariants.specs.Requests.{RepliedRequest, requests_of};
ghost use Rattle.pw_invariants.specs.Units.{CommittedUnit, FileRecords, RunsAlone};
ghost use Rattle.pw_program_laws.specs.Texts.{HaveSizes, texts_in};
ghost use Rattle.pw_program_laws.specs.Requests.{ProgramMeets};
ghost use Rattle.pw_tree_meaning.specs.OfDeck.{behaviour};
ghost use Rattle.pw_tree_meaning.specs.Program.{DeckModel, program_at};
ghost use Rattle.pw_tree_meaning.specs.Sound.{IsSoundDeck};
ghost use Rattle.pw_tree_meaning.specs.Store.{initial_store};

use pw_tree_meaning::laws::deck_laws;

/// A fact about the requests of a unit, in their order. Its author implements this for a type of theirs, which serves for nothing
/// else.
pub trait RequestsFact {
    ghost holds: { List RepliedRequest → Type 0 };
}

/// Where the statements of each requester of a deck meet what they have to, from its start, the fact holds of the requests of each
/// unit that runs alone and commits, a transaction or a SEND outside one. `sizes` are those of the elementary items of each program.
pub fn requests_are_as_statements_meet<F: RequestsFact>()
    ensures { (rule : LockRule) (deck : DeckModel) → IsSoundDeck deck → (sizes : ℕ → List ℕ)
        → ((q : ℕ) → q < length deck.programs
        → HaveSizes (sizes q) (texts_in (initial_store (program_at deck.programs q)))
        × ProgramMeets deck (program_at deck.programs q) (sizes q) F.holds)
        → (unit : CommittedUnit) (records left : FileRecords) → RunsAlone (behaviour rule deck) unit records left
        → F.holds (requests_of (behaviour rule deck) unit) }
{
    deck_laws();
}
