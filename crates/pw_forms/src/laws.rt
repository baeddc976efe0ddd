ghost use Rattle.std.specs.Prelude.{◌≡◌, ℕ, List, Bool};
ghost use Rattle.pw_text.specs.declared.token.Token.{Token};
ghost use Rattle.pw_forms.specs.Pieces.{cut, pieces_joined};

/// The pieces joined are the tokens of the text: none is lost, and none is taken twice.
pub fn piece_laws()
    ensures { (server : Bool) (text : List ℕ) (tokens : List Token)
        → pieces_joined (cut server text tokens) ≡ tokens }
{}
