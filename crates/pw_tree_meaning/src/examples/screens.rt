ghost use Rattle.std.specs.Prelude.{◌≡◌, ◌∷◌, [], true, false, codes};
ghost use Rattle.pw_code.specs.declared.verb.Verb.TheVariants.{Accept, Show, Stop};
ghost use Rattle.pw_onecopy.specs.Path.{Shown, Entry};
ghost use Rattle.pw_tree_meaning.specs.SampleScreen.{taking, staying, asking, line};
ghost use Rattle.pw_tree_meaning.specs.Samples.{asks_with, row_with};

/// A right entry: each value goes to its item, and TERMINATION-STATUS is the key's position. An
/// empty value is spaces or zero, and other fields stay. Two values of one item go in the order
/// of the pairs.
pub fn right_entries()
    ensures accepts { asks_with taking [] [] ≡ Accept 0 }
    ensures values { row_with 23 taking (line 1 ((codes "F-A", codes "XY") ∷ (
      codes "F-N",
      codes "7",
    ) ∷ []) ∷ []) (Entry 1 ∷ [])
        ≡ codes "XY 070001" }
    ensures second_key { row_with 23 taking (line 3 [] ∷ []) (Entry 1 ∷ []) ≡ codes "OLD050002" }
    ensures empty { row_with 23 taking (line 1 ((codes "F-A", []) ∷ (codes "F-N", []) ∷ []) ∷ [])
        (Entry 1 ∷ [])
        ≡ codes "   000001" }
    ensures one_item { row_with 23 taking (line 1 ((codes "F-B", codes "1") ∷ (
      codes "F-A",
      codes "2",
    ) ∷ []) ∷ []) (Entry 1 ∷ [])
        ≡ codes "2  050001" }
{}

/// A wrong entry: row 24 says so, the screen is shown, and the same Accept comes again. Nothing
/// is moved.
pub fn wrong_entries()
    ensures shows { asks_with taking (line 2 [] ∷ []) (Entry 1 ∷ []) ≡ Show }
    ensures bad_key { row_with 23 taking (line 2 ((codes "F-A", codes "LONGER") ∷ []) ∷ []) (Entry 1
        ∷ []) ≡ codes "INVALID KEY" }
    ensures bad_field { row_with 23 taking (line 1 ((codes "F-A", codes "XY") ∷ (
      codes "F-N",
      codes "-7",
    ) ∷ []) ∷ []) (Entry 1 ∷ [])
        ≡ codes "INVALID FIELD F-N" }
    ensures again { asks_with taking (line 2 [] ∷ []) (Entry 1 ∷ Shown ∷ []) ≡ Accept 0 }
    ensures wrong_twice { row_with 23 taking (line 2 [] ∷ line 1 ((codes "NONE", []) ∷ []) ∷ [])
        (Entry 1 ∷ Shown ∷ Entry 2 ∷ [])
        ≡ codes "INVALID FIELD NONE" }
    ensures right_at_last { row_with 23 taking (line 2 [] ∷ line 1 ((codes "NONE", []) ∷ []) ∷ line
        1 [] ∷ [])
        (Entry 1 ∷ Shown ∷ Entry 2 ∷ Shown ∷ Entry 3 ∷ []) ≡ codes "OLD050001" }
    ensures stays { row_with 23 staying (line 2 [] ∷ line 1 [] ∷ [])
        (Entry 1 ∷ Shown ∷ Entry 2 ∷ []) ≡ codes "INVALID KEY" }
{}

/// DISPLAY BASE clears and puts literals and fields; DISPLAY puts the fields. TO shows spaces.
pub fn displays()
    ensures base { row_with 0 (asking true) [] (Shown ∷ []) ≡ codes "NAME OLD" }
    ensures no_literals { row_with 0 (asking false) [] (Shown ∷ []) ≡ codes "     OLD" }
    ensures clears { row_with 23 (asking true) [] (Shown ∷ []) ≡ codes "" }
    ensures stays { row_with 23 (asking false) [] (Shown ∷ []) ≡ codes "HI" }
    ensures to_field { row_with 1 (asking true) [] (Shown ∷ []) ≡ codes "" }
    ensures ends { asks_with (asking true) [] (Shown ∷ Shown ∷ []) ≡ Stop }
{}
