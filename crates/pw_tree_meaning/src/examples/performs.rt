ghost use Rattle.std.specs.Prelude.{◌≡◌, ◌++◌, codes};
ghost use Rattle.pw_code.specs.declared.verb.Verb.TheVariants.{Fault, Stop};
ghost use Rattle.pw_tree_meaning.specs.Samples.{says, asks};

/// A paragraph runs on into the next one. At the end of a performed one control returns.
pub fn paragraphs()
    ensures run_on { says (codes "01 N PIC 9.")
        (codes "P. ADD 1 TO N. Q. ADD 1 TO N. R. DISPLAY N.")
        ≡ codes "2" }
    ensures returns { says (codes "01 N PIC 9.")
        (codes "P. PERFORM Q. DISPLAY N. STOP RUN. Q. ADD 1 TO N. R. ADD 5 TO N.") ≡ codes "1" }
    ensures over_the_end { says (codes "01 N PIC 9.")
        (codes "P. PERFORM Q. Q. ADD 1 TO N. R. DISPLAY N.") ≡ codes "2" }
    ensures at_the_end { asks (codes "") (codes "P. EXIT.") ≡ Stop }
    ensures empty { asks (codes "") (codes "") ≡ Stop }
{}

/// TIMES reads its value once, and takes its whole part. Below 1 there is no turn.
pub fn times()
    ensures three { says (codes "01 N PIC 9.")
        (codes "P. PERFORM Q 3 TIMES DISPLAY N. STOP RUN. Q. ADD 1 TO N.") ≡ codes "3" }
    ensures read_once { says (codes "01 N PIC 9 VALUE 2. 01 M PIC 9.")
        (codes "P. PERFORM Q N TIMES DISPLAY M. STOP RUN. Q. ADD 1 TO N ADD 1 TO M.") ≡ codes "2" }
    ensures whole_part { says (codes "01 N PIC 9.")
        (codes "P. PERFORM Q 2.9 TIMES DISPLAY N. STOP RUN. Q. ADD 1 TO N.") ≡ codes "2" }
    ensures negative { says (codes "01 N PIC 9.")
        (codes "P. PERFORM Q -1 TIMES DISPLAY N. STOP RUN. Q. ADD 1 TO N.") ≡ codes "0" }
{}

/// UNTIL tests before each turn, with the values and subscripts of that moment.
pub fn until_conditions()
    ensures three { says (codes "01 N PIC 9.")
        (codes "P. PERFORM Q UNTIL N > 2 DISPLAY N. STOP RUN. Q. ADD 1 TO N.") ≡ codes "3" }
    ensures at_once { says (codes "01 N PIC 9.")
        (codes "P. PERFORM Q UNTIL N = 0 DISPLAY N. STOP RUN. Q. ADD 1 TO N.") ≡ codes "0" }
    ensures later_subscript { asks (codes "01 I PIC 9 VALUE 1. 01 T. 02 A PIC 9 OCCURS 2.")
        (codes "P. PERFORM Q UNTIL A (I) = 9. Q. ADD 1 TO I.") ≡ Fault 203 }
{}

/// ONE OF takes the paragraph at the position, and none outside.
pub fn one_of()
    ensures second { says (codes "01 N PIC 9 VALUE 2.")
        (codes "P. PERFORM ONE OF Q, R DEPENDING ON N. STOP RUN. Q. DISPLAY \"Q\". R. "
        ++ codes "DISPLAY \"R\".")
        ≡ codes "R" }
    ensures none { asks (codes "01 N PIC 9 VALUE 3.")
        (codes "P. PERFORM ONE OF Q, R DEPENDING ON N. STOP RUN. Q. DISPLAY \"Q\". R. "
        ++ codes "DISPLAY \"R\".")
        ≡ Stop }
    ensures zero { asks (codes "01 N PIC 9.")
        (codes "P. PERFORM ONE OF Q DEPENDING ON N. STOP RUN. Q. DISPLAY \"Q\".") ≡ Stop }
{}

/// The 65th active PERFORM is DEPTH; one without a turn is never active. A subscript comes first.
pub fn depths()
    ensures sixty_four { says (codes "01 N PIC 9(2).")
        (codes "P. PERFORM Q. Q. ADD 1 TO N. IF N < 64 PERFORM Q ELSE DISPLAY N.") ≡ codes "64" }
    ensures sixty_five { asks (codes "01 N PIC 9(2).")
        (codes "P. PERFORM Q. Q. ADD 1 TO N. IF N < 65 PERFORM Q ELSE DISPLAY N.") ≡ Fault 202 }
    ensures no_turn { says (codes "01 N PIC 9(2).")
        (codes "P. PERFORM Q. Q. ADD 1 TO N. IF N < 64 PERFORM Q ELSE PERFORM Q 0 TIMES DISPLAY N.")
        ≡ codes "64" }
    ensures subscript_first { asks (codes "01 N PIC 9(2). 01 T. 02 A PIC 9 OCCURS 2.")
        (codes "P. PERFORM Q. Q. ADD 1 TO N. IF N < 64 PERFORM Q ELSE PERFORM Q A (3) TIMES.")
        ≡ Fault 203 }
{}
