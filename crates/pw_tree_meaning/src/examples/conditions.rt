ghost use Rattle.std.specs.Prelude.{◌≡◌, List, ℕ, ◌++◌, codes};
ghost use Rattle.pw_code.specs.declared.verb.Verb.TheVariants.{Fault};
ghost use Rattle.pw_tree_meaning.specs.Samples.{says, asks};

/// Two numbers compare by value, and ZEROS with a number too. All else compares as texts, the
/// shorter padded with spaces, a number without its sign.
pub fn comparisons()
    ensures by_value { says (codes "01 N PIC S9(3)V9 VALUE 5.")
        (codes "P. IF N = 5.00 DISPLAY \"Y\" ELSE DISPLAY \"N\".") ≡ codes "Y" }
    ensures zeros { says (codes "01 N PIC S9(3).")
        (codes "P. IF N EQUAL TO ZEROS DISPLAY \"Y\" ELSE DISPLAY \"N\".") ≡ codes "Y" }
    ensures padded { says (codes "01 A PIC X(3) VALUE \"A\".")
        (codes "P. IF A IS NOT = \"A\" DISPLAY \"Y\" ELSE DISPLAY \"N\".") ≡ codes "N" }
    ensures unsigned { says (codes "01 N PIC S9(2) VALUE -5.")
        (codes "P. IF N = \"05\" DISPLAY \"Y\" ELSE DISPLAY \"N\".") ≡ codes "Y" }
    ensures fills { says (codes "01 A PIC X(3) VALUE \"000\".")
        (codes "P. IF A = ZEROS DISPLAY \"Y\" ELSE DISPLAY \"N\".") ≡ codes "Y" }
    ensures empty_text { says (codes "01 A PIC X(3).")
        (codes "P. IF A = \"\" DISPLAY \"Y\" ELSE DISPLAY \"N\".") ≡ codes "Y" }
    ensures figuratives { says (codes "")
        (codes "P. IF SPACES < ZEROS DISPLAY \"Y\" ELSE DISPLAY \"N\".") ≡ codes "Y" }
    ensures against_spaces { says (codes "01 N PIC 9(2) VALUE 5.")
        (codes "P. IF N > SPACES DISPLAY \"Y\" ELSE DISPLAY \"N\".") ≡ codes "Y" }
    ensures and_first { says (codes "01 A PIC 9 VALUE 1.")
        (codes "P. IF A = 1 OR A = 2 AND A = 3 DISPLAY \"Y\" ELSE DISPLAY \"N\".") ≡ codes "Y" }
{}

/// NUMERIC: all characters are digits, and in a signed Number digits behind a sign.
pub fn numeric_tests()
    ensures text { says (codes "01 A PIC X(2) VALUE \"12\".")
        (codes "P. IF A NUMERIC DISPLAY \"Y\" ELSE DISPLAY \"N\".") ≡ codes "Y" }
    ensures space { says (codes "01 A PIC X(3) VALUE \"12\".")
        (codes "P. IF A NUMERIC DISPLAY \"Y\" ELSE DISPLAY \"N\".") ≡ codes "N" }
    ensures sign { says (codes "01 G. 02 N PIC S9.")
        (codes "P. MOVE \"-1\" TO G IF N NUMERIC DISPLAY \"Y\" ELSE DISPLAY \"N\".") ≡ codes "Y" }
    ensures no_sign { says (codes "01 G. 02 N PIC S9.")
        (codes "P. MOVE \"11\" TO G IF N NUMERIC DISPLAY \"Y\" ELSE DISPLAY \"N\".") ≡ codes "N" }
    ensures literal { says (codes "") (codes "P. IF -1.5 NUMERIC DISPLAY \"Y\" ELSE DISPLAY \"N\".")
        ≡ codes "Y" }
    ensures spaces { says (codes "")
        (codes "P. IF SPACES NOT NUMERIC DISPLAY \"Y\" ELSE DISPLAY \"N\".") ≡ codes "Y" }
{}

/// All operands of a condition are read, whatever an earlier comparison gave.
pub fn subscripts_of_conditions()
    ensures no_early_stop { asks (codes "01 I PIC 9. 01 T. 02 A PIC 9 OCCURS 2.")
        (codes "P. IF I > 0 AND A (I) = 1 DISPLAY \"Y\".") ≡ Fault 203 }
    ensures above { asks (codes "01 T. 02 A PIC 9 OCCURS 2.") (codes "P. MOVE 1 TO A (3).")
        ≡ Fault 203 }
    ensures below { asks (codes "01 T. 02 A PIC 9 OCCURS 2.") (codes "P. DISPLAY A (-1).")
        ≡ Fault 203 }
    ensures register { asks (codes "01 T. 02 A PIC 9 OCCURS 2.")
        (codes "P. ADD 1 TO A (TERMINATION-STATUS).") ≡ Fault 203 }
    ensures decimals { says (codes "01 I PIC 9V9 VALUE 1.9. 01 T. 02 A PIC 9 OCCURS 2.")
        (codes "P. MOVE 5 TO A (I) DISPLAY T.") ≡ codes "50" }
{}
