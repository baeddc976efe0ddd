ghost use Rattle.std.specs.Prelude.{◌≡◌, ℕ, ◌+◌, ◌<◌, ◌≤◌, ◌++◌, ◌∷◌, Bool, List, length, slice_index, All};
ghost use Rattle.pw_code.specs.Screen.{IsWhole};
ghost use Rattle.pw_code.specs.Fields.{IsField};
ghost use Rattle.pw_code.specs.declared.field.Field.{Field};
ghost use Rattle.pw_terminal.specs.Shown.{cell_place, field_text, with_fields, HasCell};

/// What is seen of fields: a cell of none stays, and one of a field shows what the last such field
/// shows there.
pub fn show_laws()
    ensures others { (base : Bool) (storage : List ℕ) (fields : List Field) (cells : List ℕ) (cell : ℕ)
        → IsWhole cells → All (IsField (length storage)) fields
        → All (λ field. ¬ HasCell base storage field cell) fields
        → slice_index (with_fields base storage fields cells) cell ≡ slice_index cells cell }
    ensures last { (base : Bool) (storage : List ℕ) (before later : List Field) (field : Field) (cells : List ℕ) (cell : ℕ)
        → IsWhole cells → All (IsField (length storage)) (before ++ field ∷ later)
        → HasCell base storage field (cell_place field.row field.column + cell)
        → All (λ other. ¬ HasCell base storage other (cell_place field.row field.column + cell)) later
        → slice_index (with_fields base storage (before ++ field ∷ later) cells) (cell_place field.row field.column + cell)
        ≡ slice_index (field_text storage field.shown) cell }
{}
