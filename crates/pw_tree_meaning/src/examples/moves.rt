ghost use Rattle.std.specs.Prelude.{◌≡◌, codes};
ghost use Rattle.pw_tree_meaning.specs.Samples.{says};

/// MOVE to a text: it is cut or padded, a number loses its sign, a number literal gives its
/// digits, and SPACES and ZEROS fill.
pub fn moves_to_texts()
    ensures cut { says (codes "01 A PIC X(3).") (codes "P. MOVE \"HELLO\" TO A DISPLAY A.")
        ≡ codes "HEL" }
    ensures padded { says (codes "01 G. 02 A PIC X(3). 02 B PIC X VALUE \"|\".")
        (codes "P. MOVE \"X\" TO A DISPLAY G.") ≡ codes "X  |" }
    ensures unsigned { says (codes "01 A PIC X(5). 01 N PIC S9(3) VALUE -5.")
        (codes "P. MOVE N TO A DISPLAY A.") ≡ codes "005" }
    ensures literal { says (codes "01 A PIC X(5).") (codes "P. MOVE -12.50 TO A DISPLAY A.")
        ≡ codes "1250" }
    ensures zeros { says (codes "01 A PIC X(3).") (codes "P. MOVE ZEROS TO A DISPLAY A.")
        ≡ codes "000" }
    ensures group { says (codes "01 G. 02 A PIC X. 02 N PIC S9.")
        (codes "P. MOVE \"AB\" TO G DISPLAY G.") ≡ codes "AB" }
{}

/// MOVE to a number: high digits and decimals are cut, and the sign where there is none; of a
/// text the last 18 characters are taken as a whole number, and other characters than digits as
/// 0.
pub fn moves_to_numbers()
    ensures signed { says (codes "01 N PIC S9(3).") (codes "P. MOVE 5 TO N DISPLAY N.")
        ≡ codes "+005" }
    ensures cut { says (codes "01 N PIC 9(2).") (codes "P. MOVE -123.45 TO N DISPLAY N.")
        ≡ codes "23" }
    ensures text { says (codes "01 N PIC 9(5).") (codes "P. MOVE \"12A4\" TO N DISPLAY N.")
        ≡ codes "01204" }
    ensures last_18 { says (codes "01 N PIC 9(18).")
        (codes "P. MOVE \"9123456789012345678\" TO N DISPLAY N.") ≡ codes "123456789012345678" }
    ensures spaces { says (codes "01 N PIC S9(2) VALUE -7.")
        (codes "P. MOVE SPACES TO N DISPLAY N.") ≡ codes "+00" }
{}

/// The subscripts of a MOVE are taken once, and each of its moves reads its source anew. A group
/// with OCCURS has its occurrences one behind the other.
pub fn moves_in_order()
    ensures old_subscript { says
        (codes "01 I PIC 9 VALUE 1. 01 T. 02 A PIC 9 OCCURS 3.")
        (codes "P. MOVE 2 TO I A (I) DISPLAY T.") ≡ codes "200" }
    ensures read_anew { says (codes "01 G. 02 A PIC X VALUE \"X\". 02 B PIC X(2) VALUE \"YZ\".")
        (codes "P. MOVE B TO G A DISPLAY G.") ≡ codes "ZZ" }
    ensures table { says (codes "01 T. 02 E OCCURS 2. 03 A PIC X. 03 B PIC X.")
        (codes "P. MOVE \"1234\" TO T MOVE \"X\" TO A (2) MOVE \"Y\" TO B (1) DISPLAY T.")
        ≡ codes "1YX4" }
    ensures element { says (codes "01 T. 02 E OCCURS 2. 03 A PIC X. 03 B PIC X.")
        (codes "P. MOVE \"1234\" TO T DISPLAY E (+2).") ≡ codes "34" }
{}

/// DISPLAY shows an item as it is stored, a literal as it is written, and SPACES and ZEROS as one
/// character.
pub fn displayed()
    ensures stored { says (codes "01 N PIC S9(3) VALUE -5.") (codes "P. DISPLAY N.")
        ≡ codes "-005" }
    ensures written { says (codes "") (codes "P. DISPLAY -12.50.") ≡ codes "-12.50" }
    ensures zeros { says (codes "") (codes "P. DISPLAY ZEROS.") ≡ codes "0" }
    ensures register { says (codes "") (codes "P. DISPLAY RESTART-COUNTER.") ≡ codes "00000" }
    ensures own_item { says (codes "01 FILE-STATUS PIC X(2) VALUE \"OK\".")
        (codes "P. DISPLAY FILE-STATUS.") ≡ codes "OK" }
{}
