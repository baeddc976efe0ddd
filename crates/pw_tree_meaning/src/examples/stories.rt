ghost use Rattle.std.specs.Prelude.{◌≡◌, ◌++◌, ◌∷◌, [], codes};
ghost use Rattle.pw_code.specs.declared.verb.Verb.TheVariants.{Accept, Fault, Redo, Stop};
ghost use Rattle.pw_onecopy.specs.Path.{Shown, Entry, Begun, Ended, Dropped, Replied};
ghost use Rattle.pw_tree_meaning.specs.SampleScreen.{line};
ghost use Rattle.pw_tree_meaning.specs.Samples.{calling, main_deck, story, with_bare_screens, asks_in, comes_to_on, reply_of};

/// The place of an argument is that from before the call, though the called program changes the
/// register that is its subscript. The screens of all programs are numbered one behind the other.
pub fn places_over_a_call()
    ensures whole { story
        (with_bare_screens (calling (codes "01 G. 02 A PIC X OCCURS 5.")
        (codes "MAIN. MOVE \"abcde\" TO G. ACCEPT S UNTIL F3, F2. CALL SUB USING A "
        ++ codes "(TERMINATION-STATUS). DISPLAY G. DISPLAY TERMINATION-STATUS. MOVE \"!\" "
        ++ codes "TO A (TERMINATION-STATUS). DISPLAY G. STOP RUN.")
        (codes "L" ∷ []) (codes "LINKAGE SECTION. 01 L PIC X.")
        (codes "S1. ACCEPT S UNTIL F1, F4, F5, F6. MOVE \"X\" TO L. DISPLAY TERMINATION-STATUS.")))
        (line 2 [] ∷ line 5 [] ∷ []) (Entry 1 ∷ Entry 2 ∷ Shown ∷ Shown ∷ Shown ∷ Shown ∷ [])
        ≡ (codes "0003" ∷ codes "aXcde" ∷ codes "0003" ∷ codes "aX!de" ∷ [], Stop) }
    ensures second_screen { story
        (with_bare_screens (calling (codes "") (codes "MAIN. CALL SUB.") [] (codes "")
        (codes "S1. ACCEPT S UNTIL F1."))) [] []
        ≡ ([], Accept 1) }
{}

/// Arguments are copied back from left to right, and a subscript outside is found before the
/// call.
pub fn a_subscript_of_a_call()
    ensures whole { story
        (calling (codes "01 I PIC 9 VALUE 2. 01 G. 02 T PIC X OCCURS 2.")
        (codes "MAIN. MOVE \"AB\" TO G. CALL SUB USING T (I) T (1). DISPLAY G. ADD 1 TO "
        ++ codes "I. CALL SUB USING T (1) T (I). DISPLAY \"NEVER\". STOP RUN.")
        (codes "L" ∷ codes "M" ∷ []) (codes "LINKAGE SECTION. 01 L PIC X. 01 M PIC X.")
        (codes "S1. DISPLAY L. MOVE M TO L. MOVE \"Z\" TO M."))
        [] (Shown ∷ Shown ∷ []) ≡ (codes "B" ∷ codes "ZA" ∷ [], Fault 203) }
    ensures before_depth { asks_in (calling (codes "01 N PIC 9 VALUE 1.")
        (codes "P. CALL SUB USING N.") (codes "X" ∷ [])
        (codes "01 T. 02 A PIC 9 OCCURS 2. LINKAGE SECTION. 01 X PIC 9.")
        (codes "P. IF X = 8 CALL SUB USING A (3) ELSE ADD 1 TO X CALL SUB USING X.")) ≡ Fault 203 }
{}

/// All subscripts of a SEND are taken before it is asked, also those of items that get nothing.
pub fn a_subscript_of_a_send()
    ensures whole { story
        (main_deck (codes "01 M PIC X(4) VALUE \"0000\". 01 G. 02 T PIC X(4) OCCURS 2.")
        (codes "MAIN. SEND M TO STORE REPLY CODE 0 YIELDS T (1). DISPLAY G. SEND M TO "
        ++ codes "STORE REPLY CODE 0 YIELDS M CODE 1 YIELDS T (3). DISPLAY \"NEVER\". "
        ++ codes "STOP RUN."))
        [] (Replied (codes "0000        ") ∷ Shown ∷ []) ≡ (codes "0000" ∷ [], Fault 203) }
{}

/// Registers are common to all programs of a terminal, and stay when a unit ends.
pub fn registers_stay()
    ensures whole { story
        (calling (codes "01 M PIC X(4) VALUE \"0002\".")
        (codes "MAIN. SEND M TO STORE REPLY CODE 0 YIELDS M CODE 2 YIELDS M. DISPLAY "
        ++ codes "TERMINATION-STATUS. BEGIN-TRANSACTION. DISPLAY TERMINATION-STATUS. IF "
        ++ codes "RESTART-COUNTER < 2 RESTART-TRANSACTION. END-TRANSACTION. DISPLAY "
        ++ codes "RESTART-COUNTER. DISPLAY TERMINATION-STATUS. SEND M TO STORE REPLY CODE "
        ++ codes "2 YIELDS M. DISPLAY RESTART-COUNTER. CALL SUB. DISPLAY "
        ++ codes "TERMINATION-STATUS. BEGIN-TRANSACTION. DISPLAY RESTART-COUNTER. "
        ++ codes "ABORT-TRANSACTION. DISPLAY RESTART-COUNTER. STOP RUN.")
        [] (codes "01 M PIC X(4) VALUE \"0009\".")
        (codes "S1. DISPLAY TERMINATION-STATUS. SEND M TO STORE REPLY CODE 0 YIELDS M "
        ++ codes "CODE 1 YIELDS M CODE 9 YIELDS M."))
        [] (Replied (codes "0002        ") ∷ Shown ∷ Begun 2 ∷ Shown ∷ Ended ∷ Shown ∷ Shown ∷
        Replied (codes "0002        ") ∷ Shown ∷ Shown
        ∷ Replied (codes "0009        ") ∷ Shown ∷ Begun 0 ∷ Shown ∷ Dropped ∷ Shown ∷ [])
        ≡ (
          codes "0002" ∷ codes "0002" ∷ codes "00002" ∷ codes "0002" ∷ codes "00002" ∷ codes "0001"
              ∷ codes "0003" ∷ codes "00000" ∷ codes "00000" ∷ [],
          Stop,
        ) }
{}

/// The first CODE equal to the reply's counts; a reply goes to a number as a text does.
pub fn codes_of_a_send()
    ensures whole { story
        (main_deck (codes "01 M PIC X(4). 01 A PIC X(8) VALUE \"AAAA\". 01 B PIC X(2) VALUE "
        ++ codes "\"BB\". 01 N PIC 9(6).")
        (codes "MAIN. MOVE \"0010\" TO M. PERFORM P2. MOVE \"0011\" TO M. PERFORM P2. "
        ++ codes "STOP RUN. P2. SEND M TO STORE REPLY CODE 0 YIELDS A CODE 10 YIELDS B "
        ++ codes "CODE 0011 YIELDS N CODE 10 YIELDS A. DISPLAY TERMINATION-STATUS. "
        ++ codes "DISPLAY A. DISPLAY B. DISPLAY N."))
        [] (Replied (codes "0010        ") ∷ Shown ∷ Shown ∷ Shown ∷ Shown ∷ Replied
        (codes "0011        ") ∷ Shown ∷ Shown ∷ Shown ∷ Shown ∷ [])
        ≡ (
          codes "0002" ∷ codes "AAAA" ∷ codes "00" ∷ codes "000000" ∷ codes "0003" ∷ codes "AAAA" ∷
              codes "00" ∷ codes "000000" ∷ [],
          Stop,
        ) }
{}

/// A program that another calls begins the transaction that the other ends.
pub fn a_transaction_over_a_call()
    ensures whole { story
        (calling (codes "01 A PIC X(4) VALUE \"AAAA\".")
        (codes "MAIN. CALL SUB USING A. DISPLAY A. END-TRANSACTION. DISPLAY A. STOP RUN.")
        (codes "L" ∷ []) (codes "LINKAGE SECTION. 01 L PIC X(4).")
        (codes "S1. BEGIN-TRANSACTION. DISPLAY L. MOVE \"SUB\" TO L. IF RESTART-COUNTER "
        ++ codes "= 0 RESTART-TRANSACTION. DISPLAY L."))
        [] (Begun 1 ∷ Shown ∷ Shown ∷ Shown ∷ Ended ∷ Shown ∷ [])
        ≡ (codes "AAAA" ∷ codes "SUB" ∷ codes "SUB" ∷ codes "SUB" ∷ [], Stop) }
    ensures redone { story
        (calling (codes "01 A PIC X(4) VALUE \"AAAA\".")
        (codes "MAIN. CALL SUB USING A. DISPLAY A. END-TRANSACTION. DISPLAY A. STOP RUN.")
        (codes "L" ∷ []) (codes "LINKAGE SECTION. 01 L PIC X(4).")
        (codes "S1. BEGIN-TRANSACTION. DISPLAY L. MOVE \"SUB\" TO L. IF RESTART-COUNTER "
        ++ codes "= 0 RESTART-TRANSACTION. DISPLAY L."))
        [] (Begun 0 ∷ Shown ∷ []) ≡ (codes "AAAA" ∷ [], Redo) }
    ensures stops_inside { story
        (calling (codes "") (codes "MAIN. BEGIN-TRANSACTION. CALL SUB.") [] (codes "")
        (codes "S1. STOP RUN.")) [] (Begun 0 ∷ []) ≡ ([], Fault 207) }
    ensures exits_inside { story
        (main_deck (codes "") (codes "MAIN. BEGIN-TRANSACTION. EXIT PROGRAM.")) [] (Begun 0 ∷ [])
        ≡ ([], Fault 207) }
{}

/// A message goes to items of each kind as a text does, and the run ends with the first reply.
pub fn messages_as_texts()
    ensures long { reply_of (comes_to_on (codes "12AB5678") []
        (codes "01 X-2 PIC X(2). 01 X-9 PIC X(10). 01 N PIC 9(4). 01 S PIC S9(2)V9. 01 "
        ++ codes "R. 02 C PIC 9(4). 02 R-1 PIC X(2). 02 FILLER PIC X VALUE \"/\". 02 R-2 "
        ++ codes "PIC X(10). 02 FILLER PIC X VALUE \"/\". 02 R-3 PIC 9(4). 02 FILLER PIC "
        ++ codes "X VALUE \"/\". 02 R-4 PIC S9(2)V9.")
        (codes "P1. READ $RECEIVE INTO X-2. READ $RECEIVE INTO X-9. READ $RECEIVE INTO "
        ++ codes "N. READ $RECEIVE INTO S. MOVE X-2 TO R-1. MOVE X-9 TO R-2. MOVE N TO "
        ++ codes "R-3. MOVE S TO R-4. WRITE $RECEIVE FROM R. MOVE 9 TO C. WRITE $RECEIVE "
        ++ codes "FROM C."))
        ≡ codes "000012/12AB5678  /5678/+780" }
    ensures short { reply_of (comes_to_on (codes "9       ") [] (codes "01 N PIC 9(4).")
        (codes "P1. READ $RECEIVE INTO N. WRITE $RECEIVE FROM N.")) ≡ codes "0000" }
{}
