ghost use Rattle.std.specs.Prelude.{◌≡◌, ◌≤◌, List, ℕ, All, Ok, length};
ghost use Rattle.pw_code.specs.Limits.{most_fail_lines, most_log_lines};
ghost use Rattle.pw_code.specs.Valid.{IsValid};
ghost use Rattle.pw_code.specs.declared.lock.LockRule.{LockRule};
ghost use Rattle.pw_code.specs.declared.lock.LockRule.TheVariants.{ReadersShare};
ghost use Rattle.pw_deck.specs.Deck.{deck_of};
ghost use Rattle.pw_deck.specs.declared.deck.ParsedDeck as trees;
ghost use Rattle.pw_code_meaning.specs.OfSystem as code;
ghost use Rattle.pw_onecopy.specs.IsBehaviour.{IsBehaviour};
ghost use Rattle.pw_compiler_laws.specs.Premises.{AreFitting};
ghost use Rattle.pw_compiler_laws.specs.Systems.{system_of};
ghost use Rattle.pw_tree_meaning.specs.OfDeck as tree;
ghost use Rattle.pw_tree_meaning.specs.Sound.{IsSoundDeck};
ghost use Rattle.pw_compiled_deck.specs.Named.{IsFailNamed};
ghost use Rattle.pw_compiled_deck.specs.Short.{IsSmall};
ghost use Rattle.pw_compiled_deck.specs.Whole.{compiled, trees_of};

/// Every deck without a fault: its names resolve and its tables are valid (`IsSound`), and it is as the
/// readers see to (`AreFitting`). Where its codes and screens are not too many for their numbers, which
/// is so wherever `read` gives them, its system is valid and behaves by its codes as the deck does by its
/// trees: so the paired system may run it, and a run of the one is a run of the other. What its failure
/// lines name is there, and they are not too many.
pub fn whole_laws()
    ensures sound { (bytes : List ℕ) (deck : trees.ParsedDeck) → deck_of bytes ≡ Ok deck
        → IsSoundDeck (trees_of deck) }
    ensures fitting { (bytes : List ℕ) (deck : trees.ParsedDeck) → deck_of bytes ≡ Ok deck
        → AreFitting (trees_of deck) }
    ensures valid { (bytes : List ℕ) (deck : trees.ParsedDeck) → deck_of bytes ≡ Ok deck
        → IsSmall (compiled deck).system → IsValid (compiled deck).system }
    ensures same { (bytes : List ℕ) (deck : trees.ParsedDeck) → deck_of bytes ≡ Ok deck
        → IsSmall (compiled deck).system
        → code.behaviour (compiled deck).script.lines (compiled deck).system
        ≡ tree.behaviour ReadersShare (trees_of deck) }
    ensures behaves { (bytes : List ℕ) (deck : trees.ParsedDeck) → deck_of bytes ≡ Ok deck
        → IsBehaviour (tree.behaviour ReadersShare (trees_of deck)) }
    ensures few { (bytes : List ℕ) (deck : trees.ParsedDeck) → deck_of bytes ≡ Ok deck
        → length (compiled deck).script.lines ≤ most_fail_lines }
    ensures lines { (bytes : List ℕ) (deck : trees.ParsedDeck) → deck_of bytes ≡ Ok deck
        → All (IsFailNamed (compiled deck).system) (compiled deck).script.lines }
{}

/// The same of a deck without a fault under either rule of locking, as a log of version 1 is read by the
/// one under which every lock is exclusive. And its log has not too many entries.
pub fn rule_laws()
    ensures valid { (rule : LockRule) (bytes : List ℕ) (deck : trees.ParsedDeck) → deck_of bytes ≡ Ok deck
        → IsSmall (compiled deck).system → IsValid (system_of rule (trees_of deck)) }
    ensures same { (rule : LockRule) (bytes : List ℕ) (deck : trees.ParsedDeck) → deck_of bytes ≡ Ok deck
        → IsSmall (compiled deck).system
        → code.behaviour (trees_of deck).script (system_of rule (trees_of deck))
        ≡ tree.behaviour rule (trees_of deck) }
    ensures behaves { (rule : LockRule) (bytes : List ℕ) (deck : trees.ParsedDeck) → deck_of bytes ≡ Ok deck
        → IsBehaviour (tree.behaviour rule (trees_of deck)) }
    ensures log { (bytes : List ℕ) (deck : trees.ParsedDeck) → deck_of bytes ≡ Ok deck
        → length deck.told.log ≤ most_log_lines }
{}
