ghost use Rattle.std.specs.Prelude.{◌≡◌, codes};
ghost use Rattle.pw_tree_meaning.specs.Samples.{says};

/// ADD, SUBTRACT, MULTIPLY and DIVIDE: the second operand receives, or the item of GIVING. DIVIDE
/// divides the second by the first, at the places of the receiver.
pub fn operations()
    ensures add { says (codes "01 N PIC S9(3) VALUE -5.") (codes "P. ADD 7 TO N DISPLAY N.")
        ≡ codes "+002" }
    ensures subtract { says (codes "01 N PIC 9(3) VALUE 7.")
        (codes "P. SUBTRACT 5 FROM N DISPLAY N.") ≡ codes "002" }
    ensures multiply { says (codes "01 N PIC 9(3)V9 VALUE 1.5.")
        (codes "P. MULTIPLY 2.5 BY N DISPLAY N.") ≡ codes "0037" }
    ensures divide { says (codes "01 N PIC 9(3)V99 VALUE 2.")
        (codes "P. DIVIDE 3 INTO N DISPLAY N.") ≡ codes "00066" }
    ensures giving { says (codes "01 N PIC 9 VALUE 7. 01 M PIC 9(2).")
        (codes "P. SUBTRACT 3 FROM N GIVING M DISPLAY M.") ≡ codes "04" }
    ensures literal { says (codes "01 M PIC S9(2).")
        (codes "P. SUBTRACT 3 FROM 1 GIVING M DISPLAY M.") ≡ codes "-02" }
    ensures toward_zero { says (codes "01 N PIC S9 VALUE -7. 01 M PIC S9.")
        (codes "P. DIVIDE 2 INTO N GIVING M DISPLAY M.") ≡ codes "-3" }
{}

/// A size error stores nothing: an integer digit is lost, a negative value meets no sign, also
/// where it would be cut to zero, or the divisor is zero. ON SIZE ERROR opens a branch, as IF
/// does.
pub fn size_errors()
    ensures digit_lost { says (codes "01 N PIC 9 VALUE 7.") (codes "P. ADD 3 TO N DISPLAY N.")
        ≡ codes "7" }
    ensures no_sign { says (codes "01 N PIC 9(3) VALUE 1.")
        (codes "P. SUBTRACT 1.4 FROM N DISPLAY N.") ≡ codes "001" }
    ensures cut_to_zero { says (codes "01 N PIC 9(3) VALUE 5.")
        (codes "P. SUBTRACT 0.6 FROM 1 GIVING N DISPLAY N.") ≡ codes "000" }
    ensures by_zero { says (codes "01 N PIC 9 VALUE 7.")
        (codes "P. DIVIDE 0 INTO N ON SIZE ERROR DISPLAY \"Z\" ELSE DISPLAY N.") ≡ codes "Z" }
    ensures else_branch { says (codes "01 N PIC 9 VALUE 7.")
        (codes "P. ADD 1 TO N ON SIZE ERROR DISPLAY \"Z\" ELSE DISPLAY N.") ≡ codes "8" }
    ensures behind { says (codes "01 N PIC 9 VALUE 7.")
        (codes "P. ADD 5 TO N ON SIZE ERROR MOVE 1 TO N END-IF DISPLAY N.") ≡ codes "1" }
    ensures too_many_digits { says (codes "01 N PIC 9(18) VALUE 999999999999999999.")
        (codes "P. MULTIPLY N BY N ON SIZE ERROR DISPLAY \"Z\" ELSE DISPLAY N.") ≡ codes "Z" }
{}
