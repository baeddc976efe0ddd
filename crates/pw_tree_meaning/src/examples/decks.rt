ghost use Rattle.pw_tree_meaning.specs.SampleDeck.{small_deck};
ghost use Rattle.pw_tree_meaning.specs.Sound.{IsSoundDeck};

/// A deck whose names resolve and whose tables are valid, so what is said of such decks is said of
/// some.
pub fn a_sound_deck()
    ensures { IsSoundDeck small_deck }
{}
