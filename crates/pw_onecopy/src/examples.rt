ghost use Rattle.std.specs.Prelude.{◌≡◌, ◌+◌, ℕ, List, [], ◌∷◌, ◌++◌, None, Some, codes};
ghost use Rattle.pw_code.specs.declared.file.FileOp.TheVariants.{Next, Rewrite, Write};
ghost use Rattle.pw_locks.specs.declared.span.Span.TheVariants.{After};
ghost use Rattle.pw_onecopy.specs.Attempt.{Attempt};
ghost use Rattle.pw_onecopy.specs.Behaviour.{Behaviour};
ghost use Rattle.pw_onecopy.specs.Blocks.{Aborted, Attempted, Committed, Left, Restarted};
ghost use Rattle.pw_onecopy.specs.OneCopy.{Machine, next_attempt, run_block};
ghost use Rattle.pw_onecopy.specs.Operation.{answer_of, records_behind, span_of};
ghost use Rattle.pw_onecopy.specs.Path.{Begun, Dropped, Ended, Replied, Shown, next_number};

/// Refresh numbers by hand: outside units the phase is twice the number of units ended; inside the
/// n-th one it is 2n - 1, with the restarts of its attempt; and k counts from 1 in each.
pub fn number_examples()
    ensures start { next_number [] ≡ record { phase = 0; attempt = 0; k = 1 } }
    ensures second { next_number (Shown ∷ []) ≡ record { phase = 0; attempt = 0; k = 2 } }
    ensures inside { next_number (Shown ∷ Begun 2 ∷ Shown ∷ [])
        ≡ record { phase = 1; attempt = 2; k = 2 } }
    ensures behind { next_number (Begun 0 ∷ Shown ∷ Ended ∷ [])
        ≡ record { phase = 2; attempt = 0; k = 1 } }
    ensures dropped { next_number (Begun 0 ∷ Dropped ∷ Begun 1 ∷ [])
        ≡ record { phase = 3; attempt = 1; k = 1 } }
    ensures sent { next_number (Shown ∷ Replied [] ∷ [])
        ≡ record { phase = 2; attempt = 0; k = 1 } }
{}

/// Operations by hand, on two records with keys of one character: READ NEXT locks up to the key
/// found, or all keys above where none is found, and then has status 1; WRITE of a key that is
/// there and REWRITE of one that is not change nothing.
pub fn operation_examples()
    ensures found { span_of 1 (codes "A1" ∷ codes "C1" ∷ []) Next
        (record { file = 0; op = Next; key = codes "A"; content = [] })
        ≡ After (codes "A") (Some (codes "C")) }
    ensures none_found { span_of 1 (codes "A1" ∷ codes "C1" ∷ []) Next
        (record { file = 0; op = Next; key = codes "C"; content = [] }) ≡ After (codes "C") None }
    ensures at_end { answer_of 1 (codes "A1" ∷ codes "C1" ∷ []) Next
        (record { file = 0; op = Next; key = codes "C"; content = [] })
        ≡ record { status = 1; content = None } }
    ensures duplicate { records_behind 1 (codes "A1" ∷ codes "C1" ∷ [])
        (record { file = 0; op = Write; key = []; content = codes "C2" })
        ≡ codes "A1" ∷ codes "C1" ∷ [] }
    ensures missing { records_behind 1 (codes "A1" ∷ codes "C1" ∷ [])
        (record { file = 0; op = Rewrite; key = []; content = codes "B2" })
        ≡ codes "A1" ∷ codes "C1" ∷ [] }
    ensures written { records_behind 1 (codes "A1" ∷ codes "C1" ∷ [])
        (record { file = 0; op = Write; key = []; content = codes "B2" })
        ≡ codes "A1" ∷ codes "B2" ∷ codes "C1" ∷ [] }
{}

/// What blocks do to the files: a committed attempt's are taken, and otherwise they stay.
pub fn block_effects()
    ensures committed { (sys : Behaviour) (machine : Machine) (t n j : ℕ)
        → (run_block sys machine (Attempted t n Committed j)).files
        ≡ (next_attempt sys machine t j).files }
    ensures aborted { (sys : Behaviour) (machine : Machine) (t n j : ℕ)
        → (run_block sys machine (Attempted t n Aborted j)).files ≡ machine.files }
    ensures restarted { (sys : Behaviour) (machine : Machine) (t n j : ℕ)
        → (run_block sys machine (Attempted t n Restarted j)).files ≡ machine.files }
    ensures left { (sys : Behaviour) (machine : Machine) (t n j : ℕ)
        → (run_block sys machine (Attempted t n Left j)).files ≡ machine.files }
{}
