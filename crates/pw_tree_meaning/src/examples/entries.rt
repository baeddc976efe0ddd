ghost use Rattle.std.specs.Prelude.{◌≡◌, ◌∷◌, [], codes};
ghost use Rattle.pw_onecopy.specs.Path.{Shown, Entry};
ghost use Rattle.pw_tree_meaning.specs.SampleScreen.{kinds, row_of_kinds, line};
ghost use Rattle.pw_tree_meaning.specs.Samples.{row_with};

/// Values that fields take: a number goes to its item as the number that it is, and an empty
/// value is spaces or zero.
pub fn good_values()
    ensures none { row_of_kinds 0 (line 1 []) ≡ codes "INIT" }
    ensures shown { row_of_kinds 1 (line 1 []) ≡ codes "+0090" }
    ensures from_item { row_of_kinds 3 (line 1 []) ≡ codes "OUT" }
    ensures text { row_of_kinds 0 (line 1 ((codes "F-T", codes "AB") ∷ [])) ≡ codes "AB" }
    ensures empty_text { row_of_kinds 0 (line 1 ((codes "F-T", []) ∷ [])) ≡ codes "" }
    ensures negative { row_of_kinds 1 (line 32 ((codes "F-N", codes "-12.5") ∷ []))
        ≡ codes "-0125" }
    ensures plus { row_of_kinds 1 (line 1 ((codes "F-N", codes "+3") ∷ (codes "F-U", codes "5.") ∷
        [])) ≡ codes "+0030" }
    ensures decimals { row_of_kinds 1 (line 1 ((codes "F-N", codes ".5") ∷ [])) ≡ codes "+0005" }
    ensures empty_number { row_of_kinds 1 (line 1 ((codes "F-N", []) ∷ [])) ≡ codes "+0000" }
    ensures edited { row_of_kinds 1 (line 1 ((codes "F-E", codes "-999.9") ∷ (
      codes "f-t",
      codes "zz",
    ) ∷ [])) ≡ codes "-9999" }
    ensures either_case { row_of_kinds 0 (line 1 ((codes "F-E", codes "-999.9") ∷ (
      codes "f-t",
      codes "zz",
    ) ∷ [])) ≡ codes "zz" }
    ensures high_digit { row_of_kinds 1 (line 1 ((codes "F-E", codes "-9999.9") ∷ [])) ≡
        codes "-9999" }
    ensures first_position { row_with 23 kinds (line 1 [] ∷ []) (Entry 1 ∷ Shown ∷ []) ≡
        codes "0001" }
    ensures second_position { row_with 23 kinds (line 32 [] ∷ []) (Entry 1 ∷ Shown ∷ []) ≡
        codes "0002" }
{}

/// Values that they do not take.
pub fn bad_values()
    ensures sign_alone { row_of_kinds 23 (line 1 ((codes "F-N", codes "-") ∷ [])) ≡
        codes "INVALID FIELD F-N" }
    ensures point_alone { row_of_kinds 23 (line 1 ((codes "F-N", codes ".") ∷ [])) ≡
        codes "INVALID FIELD F-N" }
    ensures two_decimals { row_of_kinds 23 (line 1 ((codes "F-N", codes "1.25") ∷ [])) ≡
        codes "INVALID FIELD F-N" }
    ensures four_digits { row_of_kinds 23 (line 1 ((codes "F-N", codes "1234") ∷ [])) ≡
        codes "INVALID FIELD F-N" }
    ensures no_sign { row_of_kinds 23 (line 1 ((codes "F-U", codes "-1") ∷ [])) ≡
        codes "INVALID FIELD F-U" }
    ensures zeros_in_front { row_of_kinds 23 (line 1 ((codes "F-U", codes "00005") ∷ [])) ≡
        codes "INVALID FIELD F-U" }
    ensures plus_too_long { row_of_kinds 23 (line 1 ((codes "F-U", codes "+0005") ∷ [])) ≡
        codes "INVALID FIELD F-U" }
    ensures takes_none { row_of_kinds 23 (line 1 ((codes "F-O", codes "X") ∷ [])) ≡
        codes "INVALID FIELD F-O" }
    ensures filler { row_of_kinds 23 (line 1 ((codes "FILLER", codes "X") ∷ [])) ≡
        codes "INVALID FIELD FILLER" }
    ensures too_long { row_of_kinds 23 (line 1 ((codes "F-T", codes "TOOLONG") ∷ [])) ≡
        codes "INVALID FIELD F-T" }
    ensures key_first { row_of_kinds 23 (line 2 ((codes "F-X", codes "1") ∷ [])) ≡
        codes "INVALID KEY" }
    ensures first_pair { row_of_kinds 23 (line 1 ((codes "F-T", codes "OK") ∷ (
      codes "F-U",
      codes "1A",
    ) ∷ (codes "F-N", codes "1.25") ∷ [])) ≡ codes "INVALID FIELD F-U" }
    ensures comma { row_of_kinds 23 (line 1 ((codes "F-E", codes "1,234") ∷ [])) ≡
        codes "INVALID FIELD F-E" }
{}
