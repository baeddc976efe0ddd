ghost use Rattle.std.specs.Prelude.{◌≡◌, codes, true, Err, Ok};
ghost use Rattle.pw_deck_bounds.specs.SamplePaces.{pace_of_text};

/// A loop may go on whose turns take an entry, or no answer; one that displays alone is told. Paragraphs that follow count too,
/// though control does not come there.
pub fn paces()
    ensures entering { pace_of_text (codes "P. PERFORM Q UNTIL N > 2. STOP RUN. Q. DISPLAY N. ACCEPT ASK UNTIL F1.")
        ≡ Ok (record { row = 6; enters = true }) }
    ensures silent { pace_of_text (codes "P. PERFORM Q UNTIL N > 2. DISPLAY N. STOP RUN. Q. ADD 1 TO N.")
        ≡ Ok (record { row = 1; enters = true }) }
    ensures counted { pace_of_text (codes "P. PERFORM Q 3 TIMES. STOP RUN. Q. DISPLAY N.")
        ≡ Ok (record { row = 4; enters = true }) }
    ensures unheld { pace_of_text (codes "P. PERFORM Q UNTIL N > 2. STOP RUN. Q. DISPLAY N.")
        ≡ Err (record { program = codes "MAIN"; paragraph = codes "P"; line = 1 }) }
    ensures told_by_an_item { pace_of_text (codes "P. PERFORM Q N TIMES. STOP RUN. Q. DISPLAY N.")
        ≡ Err (record { program = codes "MAIN"; paragraph = codes "P"; line = 1 }) }
{}
