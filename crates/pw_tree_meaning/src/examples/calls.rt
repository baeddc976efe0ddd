ghost use Rattle.std.specs.Prelude.{◌≡◌, ◌∷◌, [], codes};
ghost use Rattle.pw_code.specs.declared.verb.Verb.TheVariants.{Fault, Stop, Show};
ghost use Rattle.pw_tree_meaning.specs.Runs.{called, verb_of, start};
ghost use Rattle.pw_tree_meaning.specs.Program.{no_program};
ghost use Rattle.pw_tree_meaning.specs.Samples.{calling, says_in, asks_in};

/// CALL copies the arguments in, runs the program from its initial storage, and copies them back,
/// to the places from before the call, from left to right.
pub fn arguments()
    ensures there_and_back { says_in (calling (codes "01 A PIC 9 VALUE 3.")
        (codes "P. CALL SUB USING A DISPLAY A.")
        (codes "X" ∷ []) (codes "LINKAGE SECTION. 01 X PIC 9.") (codes "P. ADD 2 TO X.")) ≡
        codes "5" }
    ensures initial { says_in (calling (codes "01 A PIC 9.")
        (codes "P. CALL SUB USING A CALL \"SUB\" USING A DISPLAY A.")
        (codes "X" ∷ []) (codes "01 W PIC 9. LINKAGE SECTION. 01 X PIC 9.")
        (codes "P. ADD 1 TO W MOVE W TO X."))
        ≡ codes "1" }
    ensures places_before { says_in (calling
        (codes "01 I PIC 9 VALUE 1. 01 T. 02 A PIC 9 OCCURS 2.")
        (codes "P. CALL SUB USING I A (I) DISPLAY T.") (codes "X" ∷ codes "Y" ∷ [])
        (codes "LINKAGE SECTION. 01 X PIC 9. 01 Y PIC 9.") (codes "P. MOVE 2 TO X MOVE 7 TO Y.")) ≡
        codes "70" }
    ensures given_twice { says_in (calling (codes "01 A PIC 9.")
        (codes "P. CALL SUB USING A A DISPLAY A.")
        (codes "X" ∷ codes "Y" ∷ []) (codes "LINKAGE SECTION. 01 X PIC 9. 01 Y PIC 9.")
        (codes "P. MOVE 1 TO X MOVE 2 TO Y.")) ≡ codes "2" }
    ensures with_sign { says_in (calling (codes "01 N PIC S9 VALUE -4.")
        (codes "P. CALL SUB USING N DISPLAY N.")
        (codes "X" ∷ []) (codes "LINKAGE SECTION. 01 X PIC X(2).")
        (codes "P. IF X = \"-4\" MOVE \"+9\" TO X."))
        ≡ codes "+9" }
{}

/// EXIT PROGRAM leaves a called program, also from a performed paragraph; elsewhere it is STOP
/// RUN.
pub fn exits()
    ensures from_paragraph { says_in (calling (codes "") (codes "P. CALL SUB DISPLAY \"A\".") []
        (codes "") (codes "P. PERFORM Q. DISPLAY \"B\". Q. EXIT PROGRAM.")) ≡ codes "A" }
    ensures outside { asks_in (calling (codes "") (codes "P. EXIT PROGRAM.") [] (codes "")
        (codes "")) ≡ Stop }
    ensures performs_anew { says_in (calling (codes "01 N PIC 9(2).")
        (codes "P. PERFORM Q. STOP RUN. Q. ADD 1 TO N. IF N < 64 PERFORM Q ELSE CALL SUB.") []
        (codes "") (codes "P. PERFORM Q. STOP RUN. Q. DISPLAY \"IN\".")) ≡ codes "IN" }
    ensures stop_inside { asks_in (calling (codes "") (codes "P. CALL SUB DISPLAY \"A\".") []
        (codes "") (codes "P. STOP RUN.")) ≡ Stop }
{}

/// The 9th active CALL is DEPTH, and storage above 64,000 is STORAGE; DEPTH comes first. A called
/// program begins again with no active PERFORM.
pub fn call_faults()
    ensures ninth { asks_in (calling (codes "") (codes "P. CALL SUB.") [] (codes "")
        (codes "P. CALL SUB.")) ≡ Fault 202 }
    ensures eighth { says_in (calling (codes "01 N PIC 9 VALUE 1.") (codes "P. CALL SUB USING N.")
        (codes "X" ∷ [])
        (codes "LINKAGE SECTION. 01 X PIC 9.")
        (codes "P. IF X = 8 DISPLAY X ELSE ADD 1 TO X CALL SUB USING X.")) ≡ codes "8" }
    ensures room { verb_of (called 8 (calling (codes "") (codes "") [] (codes "01 A PIC X(2).")
        (codes "P. DISPLAY A."))
        63998 1 [] (start no_program [])) ≡ Show }
    ensures no_room { verb_of (called 8 (calling (codes "") (codes "") [] (codes "01 A PIC X(2).")
        (codes "P. DISPLAY A."))
        63999 1 [] (start no_program [])) ≡ Fault 208 }
    ensures depth_first { verb_of (called 0 (calling (codes "") (codes "") []
        (codes "01 A PIC X(2).") (codes "P. DISPLAY A."))
        63999 1 [] (start no_program [])) ≡ Fault 202 }
{}
