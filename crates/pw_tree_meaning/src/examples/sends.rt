ghost use Rattle.std.specs.Prelude.{◌≡◌, ◌++◌, ◌∷◌, [], codes};
ghost use Rattle.pw_code.specs.declared.verb.Verb.TheVariants.{Begin, End, Drop, Redo, Fault, Send, Stop};
ghost use Rattle.pw_onecopy.specs.Path.{Begun, Ended, Dropped, Replied, Failed};
ghost use Rattle.pw_tree_meaning.specs.Samples.{says_after, asks_after, asks};

/// SEND: the message is the item's characters. The first CODE equal to the reply's counts: its
/// position is TERMINATION-STATUS, and the reply goes to its item.
pub fn sends()
    ensures message { asks (codes "01 M PIC S9(2) VALUE 5. 01 A PIC X(7).")
        (codes "P. SEND M TO STORE REPLY CODE 0 YIELDS A.")
        ≡ Send 1 (codes "+05") }
    ensures yields { says_after (Replied (codes "0001XYZ") ∷ [])
        (codes "01 A PIC X(7). 01 B PIC X(7).")
        (codes "P. SEND A TO STORE REPLY CODE 0 YIELDS A CODE 1 YIELDS B DISPLAY B.") ≡
        codes "0001XYZ" }
    ensures position { says_after (Replied (codes "0001XYZ") ∷ [])
        (codes "01 A PIC X(7). 01 B PIC X(7).")
        (codes "P. SEND A TO STORE REPLY CODE 0 YIELDS A CODE 1 YIELDS B DISPLAY "
        ++ codes "TERMINATION-STATUS.") ≡ codes "0002" }
    ensures place_before { says_after (Replied (codes "0001") ∷ Replied (codes "0000") ∷ [])
        (codes "01 A PIC X(4). 01 T. 02 B PIC X(4) OCCURS 2.")
        (codes "P. SEND A TO STORE REPLY CODE 0 YIELDS A CODE 1 YIELDS A SEND A TO "
        ++ codes "STORE REPLY CODE 0 YIELDS B (TERMINATION-STATUS) DISPLAY T.") ≡ codes "    0000" }
{}

/// NOCODE: no CODE is the reply's, or it has none. A server's run fault is the program's.
pub fn replies_without_code()
    ensures other { asks_after (Replied (codes "0002") ∷ []) (codes "01 A PIC X(4).")
        (codes "P. SEND A TO STORE REPLY CODE 0 YIELDS A.") ≡ Fault 204 }
    ensures no_digits { asks_after (Replied (codes "00 0") ∷ []) (codes "01 A PIC X(4).")
        (codes "P. SEND A TO STORE REPLY CODE 0 YIELDS A.") ≡ Fault 204 }
    ensures short { asks_after (Replied (codes "000") ∷ []) (codes "01 A PIC X(4).")
        (codes "P. SEND A TO STORE REPLY CODE 0 YIELDS A.") ≡ Fault 204 }
    ensures failed { asks_after (Failed 209 ∷ []) (codes "01 A PIC X(4).")
        (codes "P. SEND A TO STORE REPLY CODE 0 YIELDS A.") ≡ Fault 209 }
{}

/// Transactions: NESTED, NOUNIT and OPENUNIT each at its place.
pub fn transactions()
    ensures begins { asks (codes "") (codes "P. BEGIN-TRANSACTION.") ≡ Begin }
    ensures counter { says_after (Begun 2 ∷ []) (codes "")
        (codes "P. BEGIN-TRANSACTION DISPLAY RESTART-COUNTER.") ≡ codes "00002" }
    ensures nested { asks_after (Begun 0 ∷ []) (codes "")
        (codes "P. BEGIN-TRANSACTION BEGIN-TRANSACTION.") ≡ Fault 205 }
    ensures ends { asks_after (Begun 0 ∷ []) (codes "")
        (codes "P. BEGIN-TRANSACTION END-TRANSACTION.") ≡ End }
    ensures drops { asks_after (Begun 0 ∷ []) (codes "")
        (codes "P. BEGIN-TRANSACTION ABORT-TRANSACTION.") ≡ Drop }
    ensures redoes { asks_after (Begun 0 ∷ []) (codes "")
        (codes "P. BEGIN-TRANSACTION RESTART-TRANSACTION.") ≡ Redo }
    ensures again { asks_after (Begun 0 ∷ Ended ∷ []) (codes "")
        (codes "P. BEGIN-TRANSACTION END-TRANSACTION BEGIN-TRANSACTION.") ≡ Begin }
    ensures after_drop { asks_after (Begun 0 ∷ Dropped ∷ []) (codes "")
        (codes "P. BEGIN-TRANSACTION ABORT-TRANSACTION STOP RUN.") ≡ Stop }
    ensures no_unit { asks (codes "") (codes "P. END-TRANSACTION.") ≡ Fault 206 }
    ensures no_unit_to_drop { asks (codes "") (codes "P. ABORT-TRANSACTION.") ≡ Fault 206 }
    ensures no_unit_to_restart { asks (codes "") (codes "P. RESTART-TRANSACTION.") ≡ Fault 206 }
    ensures open_unit { asks_after (Begun 0 ∷ []) (codes "")
        (codes "P. BEGIN-TRANSACTION STOP RUN.") ≡ Fault 207 }
    ensures open_at_end { asks_after (Begun 0 ∷ []) (codes "") (codes "P. BEGIN-TRANSACTION.") ≡
        Fault 207 }
{}
