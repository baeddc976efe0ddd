ghost use Rattle.std.specs.Prelude.{◌≡◌, ℕ, List, Ok};
ghost use Rattle.pw_text.specs.declared.token.Token.{Token};
ghost use Rattle.pw_data.specs.Layouts.{Laid};
ghost use Rattle.pw_code.specs.declared.field.ScreenTable.{ScreenTable};
ghost use Rattle.pw_screen.specs.Screens.{screens_of};
ghost use Rattle.pw_screen.specs.Apart.{AllApart};

/// What holds of the screens of every section without a fault: no two fields of a screen have a cell in
/// common.
pub fn screen_laws()
    ensures apart { (text : List ℕ) (tokens : List Token) (laid : Laid) (tables : List ScreenTable)
        → screens_of text tokens laid ≡ Ok tables → AllApart tables }
{}
