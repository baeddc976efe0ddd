ghost use Rattle.std.specs.Prelude.{◌≡◌, ◌∷◌, [], codes};
ghost use Rattle.pw_tree_meaning.specs.SampleServer.{serving};

/// Every operation and status on a file of two records.
pub fn every_operation()
    ensures read { serving (codes "RB1") ≡ (
      codes "00000000B10007",
      codes "A10005" ∷ codes "B10007"
          ∷ [],
    ) }
    ensures read_missing { serving (codes "RB2") ≡ (
      codes "00000011      ",
      codes "A10005" ∷
          codes "B10007" ∷ [],
    ) }
    ensures next { serving (codes "NA1") ≡ (
      codes "00000000B10007",
      codes "A10005" ∷ codes "B10007"
          ∷ [],
    ) }
    ensures next_missing { serving (codes "NB1") ≡ (
      codes "00000001      ",
      codes "A10005" ∷
          codes "B10007" ∷ [],
    ) }
    ensures write { serving (codes "WA20001") ≡ (
      codes "00000000      ",
      codes "A10005" ∷
          codes "A20001" ∷ codes "B10007" ∷ [],
    ) }
    ensures write_twice { serving (codes "WA10001") ≡ (
      codes "00000010      ",
      codes "A10005" ∷
          codes "B10007" ∷ [],
    ) }
    ensures rewrite { serving (codes "UA10001") ≡ (
      codes "00000000      ",
      codes "A10001" ∷
          codes "B10007" ∷ [],
    ) }
    ensures rewrite_missing { serving (codes "UA20001") ≡ (
      codes "00000011      ",
      codes "A10005" ∷
          codes "B10007" ∷ [],
    ) }
    ensures delete { serving (codes "DA1") ≡ (codes "00000000      ", codes "B10007" ∷ []) }
    ensures delete_missing { serving (codes "DA2") ≡ (
      codes "00000011      ",
      codes "A10005" ∷
          codes "B10007" ∷ [],
    ) }
    ensures increment { serving (codes "IA1") ≡ (
      codes "00000000A10006",
      codes "A10006" ∷
          codes "B10007" ∷ [],
    ) }
    ensures nothing { serving (codes "X") ≡ (
      codes "00000000      ",
      codes "A10005" ∷ codes "B10007"
          ∷ [],
    ) }
{}
