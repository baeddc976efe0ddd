ghost use Rattle.pw_onecopy.specs.IsBehaviour.{IsBehaviour};
ghost use Rattle.pw_worked_logs.specs.Deck.{WorkedSetting, deck};

/// What holds of every deck holds of the worked ones, so the laws of runs speak of them.
pub fn worked_decks()
    ensures { (setting : WorkedSetting) → IsBehaviour (deck setting) }
{}
