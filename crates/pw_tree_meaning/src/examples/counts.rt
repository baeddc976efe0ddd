ghost use Rattle.std.specs.Prelude.{◌≡◌, ◌∷◌, [], Some, None, codes};
ghost use Rattle.pw_code.specs.declared.verb.Answer.{Answer};
ghost use Rattle.pw_code.specs.declared.verb.Verb.{Verb};
ghost use Rattle.pw_code.specs.declared.verb.Verb.TheVariants.{Fault, Show, Reply, Stop};
ghost use Rattle.pw_tree_meaning.specs.Samples.{asks_counting, serves_counting};
ghost use Rattle.pw_tree_meaning.specs.State.{ProgramState, Out, statement_counted, asks, faults};

/// A statement or a turn that would be counted as number 100,001 is LOOP, and no other one.
/// Behind an answer the count of a terminal's program is 0 again.
pub fn counts()
    ensures last { (next : ProgramState → Out) (s : ProgramState)
        → statement_counted next (record s { count = 99999 }) ≡ next (record s { count = 100000 }) }
    ensures one_more { (next : ProgramState → Out) (s : ProgramState)
        → statement_counted next (record s { count = 100000 }) ≡ faults 201 (record s { count = 100000 }) }
    ensures from_zero { (verb : Verb) (next : Answer → ProgramState → Out) (s : ProgramState) (answer : Answer)
        → asks verb next (record s { answers = answer ∷ [] }) ≡ next answer (record s {
          answers =
              [];
          count = 0;
        }) }
{}

/// A PERFORM counts one, and each of its turns one more; a branch counts none, and its statements
/// do. The count comes before subscripts, and before the depth. The end of a program counts none.
pub fn counts_of_statements()
    ensures turns { asks_counting 99996 (codes "") (codes "P. PERFORM Q 2 TIMES DISPLAY \"A\". Q.")
        ≡ Show }
    ensures one_turn_more { asks_counting 99997 (codes "")
        (codes "P. PERFORM Q 2 TIMES DISPLAY \"A\". Q.") ≡ Fault 201 }
    ensures branch { asks_counting 99998 (codes "") (codes "P. IF 1 = 1 DISPLAY \"A\".") ≡ Show }
    ensures in_branch { asks_counting 99999 (codes "") (codes "P. IF 1 = 1 DISPLAY \"A\".") ≡ Fault
        201 }
    ensures tests { asks_counting 99996 (codes "01 N PIC 9.")
        (codes "P. PERFORM Q UNTIL N = 1 DISPLAY N. Q. ADD 1 TO N.") ≡ Show }
    ensures tests_more { asks_counting 99997 (codes "01 N PIC 9.")
        (codes "P. PERFORM Q UNTIL N = 1 DISPLAY N. Q. ADD 1 TO N.") ≡ Fault 201 }
    ensures before_subscripts { asks_counting 100000 (codes "01 T. 02 A PIC 9 OCCURS 2.")
        (codes "P. MOVE 1 TO A (3).") ≡ Fault 201 }
    ensures before_depth { asks_counting 99935 (codes "") (codes "P. PERFORM P.") ≡ Fault 201 }
    ensures subscript_before_turn { asks_counting 99999 (codes "01 T. 02 A PIC 9 OCCURS 2.")
        (codes "P. PERFORM Q UNTIL A (3) = 1. Q.") ≡ Fault 203 }
    ensures at_the_end { asks_counting 99999 (codes "") (codes "P. EXIT.") ≡ Stop }
{}

/// A server's statements count as a whole, also over its file operations.
pub fn counts_of_servers()
    ensures last { serves_counting 99998 (record { status = 11; content = None } ∷ [])
        (codes "01 K PIC X(2).")
        (codes "P. DELETE STOCK KEY K WRITE $RECEIVE FROM K.") ≡ Reply (codes "  ") }
    ensures one_more { serves_counting 99999 (record { status = 11; content = None } ∷ [])
        (codes "01 K PIC X(2).")
        (codes "P. DELETE STOCK KEY K WRITE $RECEIVE FROM K.") ≡ Fault 201 }
{}
