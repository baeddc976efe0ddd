ghost use Rattle.std.specs.Prelude.{◌≡◌, ◌++◌, ◌∷◌, [], Some, None, codes};
ghost use Rattle.pw_code.specs.declared.file.FileOp.TheVariants.{Read, NextLock, Write};
ghost use Rattle.pw_code.specs.declared.verb.Verb.TheVariants.{Fault, File, Reply};
ghost use Rattle.pw_onecopy.specs.Behaviour as served;
ghost use Rattle.pw_tree_meaning.specs.Samples.{serves, comes_to, reply_of, stock_of};

/// The verbs of files name the file, the operation, the key and the record.
pub fn file_calls()
    ensures read { serves [] (codes "01 K PIC X(2) VALUE \"A1\". 01 R PIC X(6).")
        (codes "P. READ STOCK KEY K INTO R.")
        ≡ File (record { file = 0; op = Read; key = codes "A1"; content = [] }) }
    ensures next { serves [] (codes "01 K PIC X(2) VALUE \"A1\". 01 R PIC X(6).")
        (codes "P. READ NEXT STOCK WITH LOCK AFTER K INTO R.")
        ≡ File (record { file = 0; op = NextLock; key = codes "A1"; content = [] }) }
    ensures write { serves [] (codes "01 R PIC X(4) VALUE \"A1X\".")
        (codes "P. WRITE STOCK FROM R.")
        ≡ File (record { file = 0; op = Write; key = []; content = codes "A1X " }) }
{}

/// A record is moved INTO its item at status 0 alone, and FILE-STATUS is the status.
pub fn file_answers()
    ensures found { serves (record { status = 0; content = Some (codes "A1XYZ") } ∷ [])
        (codes "01 K PIC X(2). 01 R PIC X(4).")
        (codes "P. READ STOCK KEY K INTO R WRITE $RECEIVE FROM R.")
        ≡ Reply (codes "A1XY") }
    ensures missing { serves (record { status = 11; content = None } ∷ [])
        (codes "01 K PIC X(2). 01 R PIC X(4) VALUE \"OLD\".")
        (codes "P. READ STOCK KEY K INTO R WRITE $RECEIVE FROM R.")
        ≡ Reply (codes "OLD ") }
    ensures status_0_alone { serves (record { status = 11; content = Some (codes "A1XYZ") } ∷ [])
        (codes "01 K PIC X(2). 01 R PIC X(4) VALUE \"OLD\".")
        (codes "P. READ STOCK KEY K INTO R WRITE $RECEIVE FROM R.")
        ≡ Reply (codes "OLD ") }
    ensures status { serves (record { status = 11; content = None } ∷ [])
        (codes "01 K PIC X(2).") (codes "P. DELETE STOCK KEY K WRITE $RECEIVE FROM FILE-STATUS.") ≡
        Reply (codes "0011") }
{}

/// A server takes its message, and ends at its reply; without one it is NOREPLY.
pub fn server_ends()
    ensures message { serves [] (codes "01 A PIC X(3).")
        (codes "P. READ $RECEIVE INTO A WRITE $RECEIVE FROM A.")
        ≡ Reply (codes "M  ") }
    ensures stops { serves [] (codes "") (codes "P. STOP RUN.") ≡ Fault 209 }
    ensures exits { serves [] (codes "") (codes "P. EXIT PROGRAM.") ≡ Fault 209 }
    ensures at_the_end { serves [] (codes "") (codes "P. EXIT.") ≡ Fault 209 }
{}

/// Run by itself, a server does its operations on the files as they come.
pub fn served_alone()
    ensures reads { reply_of (comes_to (codes "A10005" ∷ codes "B10007" ∷ [])
        (codes "01 K PIC X(2) VALUE \"A1\". 01 R PIC X(6).")
        (codes "P. READ NEXT STOCK AFTER K INTO R WRITE $RECEIVE FROM R.")) ≡ codes "B10007" }
    ensures writes { stock_of (comes_to (codes "A10005" ∷ codes "C10007" ∷ [])
        (codes "01 R PIC X(6) VALUE \"B10001\".")
        (codes "P. WRITE STOCK FROM R WRITE $RECEIVE FROM R.")) ≡ codes "A10005" ∷ codes "B10001" ∷
        codes "C10007" ∷ [] }
    ensures duplicate { reply_of (comes_to (codes "A10005" ∷ [])
        (codes "01 R PIC X(6) VALUE \"A10001\".")
        (codes "P. WRITE STOCK FROM R WRITE $RECEIVE FROM FILE-STATUS.")) ≡ codes "0010" }
    ensures reads_its_own { reply_of (comes_to (codes "A10005" ∷ [])
        (codes "01 R. 02 K PIC X(2) VALUE \"A1\". 02 N PIC 9(4).")
        (codes "P. READ STOCK KEY K INTO R ADD 1 TO N REWRITE STOCK FROM R MOVE 0 TO N "
        ++ codes "READ STOCK KEY K INTO R WRITE $RECEIVE FROM R."))
        ≡ codes "A10006" }
    ensures no_reply { comes_to [] (codes "") (codes "P. EXIT.") ≡ served.Fault 209 }
{}
