ghost use Rattle.std.specs.Prelude.{◌≡◌, Some, slice_get};
ghost use Rattle.pw_base.specs.declared.fault_code.FaultCode.{FaultCode};
ghost use Rattle.pw_base.specs.FaultCodes.{place, text};
ghost use Rattle.pw_words.specs.Texts.{piece_words, requester_words, server_words, pathcom_words, refusal_texts};

use crate::table::Table;
use pw_base::fault_code::FaultCode;

/// The verbs, and the given rows behind them.
macro_rules! verbs {
    ($($behind:literal),* $(,)?) => {
        &[
            b"ACCEPT",
            b"ABORT-TRANSACTION",
            b"ADD",
            b"BEGIN-TRANSACTION",
            b"CALL",
            b"DELETE",
            b"DISPLAY",
            b"DIVIDE",
            b"END-TRANSACTION",
            b"EXIT",
            b"IF",
            b"MOVE",
            b"MULTIPLY",
            b"PERFORM",
            b"READ",
            b"RESTART-TRANSACTION",
            b"REWRITE",
            b"SEND",
            b"STOP",
            b"SUBTRACT",
            b"WRITE",
            $($behind),*
        ]
    };
}

/// The rows of a language: the verbs, the other words of both languages, and the given ones.
macro_rules! language {
    ($($own:literal),* $(,)?) => {
        verbs![
            b"ELSE",
            b"END-IF",
            b"THEN",
            b"AND",
            b"OR",
            b"NOT",
            b"IS",
            b"NUMERIC",
            b"EQUAL",
            b"GREATER",
            b"LESS",
            b"THAN",
            b"TO",
            b"FROM",
            b"BY",
            b"INTO",
            b"GIVING",
            b"ON",
            b"SIZE",
            b"ERROR",
            b"TIMES",
            b"UNTIL",
            b"ONE",
            b"OF",
            b"DEPENDING",
            b"PROGRAM",
            b"RUN",
            b"SPACE",
            b"SPACES",
            b"ZERO",
            b"ZEROS",
            b"ZEROES",
            b"FILLER",
            b"PIC",
            b"PICTURE",
            b"VALUE",
            b"OCCURS",
            b"DIVISION",
            b"SECTION",
            $($own),*
        ]
    };
}

/// The given rows.
macro_rules! rows {
    ($($row:literal),* $(,)?) => {
        &[$($row),*]
    };
}

/// The words that begin a piece of a procedure: the verbs, ELSE and END-IF. The words of a requester
/// and those of a server begin with them.
pub fn piece_words() -> Table<23>
    ensures { result ≡ piece_words }
{
    const ROWS: &[&[u8]] = verbs![b"ELSE", b"END-IF"];
    const INDEX: &[&[u8]] = &[
        &[],
        &[0, 1, 2],
        &[3],
        &[4],
        &[5, 6, 7],
        &[8, 9, 21, 22],
        &[],
        &[],
        &[],
        &[10],
        &[],
        &[],
        &[],
        &[11, 12],
        &[],
        &[],
        &[13],
        &[],
        &[14, 15, 16],
        &[17, 18, 19],
        &[],
        &[],
        &[],
        &[20],
    ];
    Table {
        rows: ROWS,
        index: INDEX,
    }
}

/// The words of a requester: the verbs, then the other words of both languages, then its own.
pub fn requester_words() -> Table<68>
    ensures { result ≡ requester_words }
{
    const ROWS: &[&[u8]] = language![
        b"BASE",
        b"AT",
        b"USING",
        b"REPLY",
        b"CODE",
        b"YIELDS",
        b"TERMINATION-STATUS",
        b"RESTART-COUNTER",
    ];
    const INDEX: &[&[u8]] = &[
        &[],
        &[0, 1, 2, 24, 61],
        &[3, 35, 60],
        &[4, 64],
        &[5, 6, 7, 45, 58],
        &[8, 9, 21, 22, 29, 40],
        &[34, 53],
        &[30, 37],
        &[],
        &[10, 27, 36],
        &[],
        &[],
        &[31],
        &[11, 12],
        &[26, 28],
        &[25, 38, 43, 44, 57],
        &[13, 46, 54, 55],
        &[],
        &[14, 15, 16, 47, 63, 67],
        &[17, 18, 19, 39, 48, 49, 59],
        &[23, 32, 33, 41, 66],
        &[42, 62],
        &[56],
        &[20],
        &[],
        &[65],
        &[50, 51, 52],
    ];
    Table {
        rows: ROWS,
        index: INDEX,
    }
}

/// The words of a server: the verbs, then the other words of both languages, then its own, of
/// which WITH and LOCK are the last.
pub fn server_words() -> Table<67>
    ensures { result ≡ server_words }
{
    const ROWS: &[&[u8]] = language![
        b"$RECEIVE",
        b"NEXT",
        b"KEY",
        b"AFTER",
        b"FILE-STATUS",
        b"WITH",
        b"LOCK",
    ];
    const INDEX: &[&[u8]] = &[
        &[60],
        &[0, 1, 2, 24, 63],
        &[3, 35],
        &[4],
        &[5, 6, 7, 45, 58],
        &[8, 9, 21, 22, 29, 40],
        &[34, 53, 64],
        &[30, 37],
        &[],
        &[10, 27, 36],
        &[],
        &[62],
        &[31, 66],
        &[11, 12],
        &[26, 28, 61],
        &[25, 38, 43, 44, 57],
        &[13, 46, 54, 55],
        &[],
        &[14, 15, 16, 47],
        &[17, 18, 19, 39, 48, 49, 59],
        &[23, 32, 33, 41],
        &[42],
        &[56],
        &[20, 65],
        &[],
        &[],
        &[50, 51, 52],
    ];
    Table {
        rows: ROWS,
        index: INDEX,
    }
}

/// The words of the commands.
pub fn pathcom_words() -> Table<10>
    ensures { result ≡ pathcom_words }
{
    const ROWS: &[&[u8]] = rows![
        b"SET",
        b"ADD",
        b"START",
        b"TCP",
        b"TERM",
        b"SERVER",
        b"INITIAL",
        b"PROGRAM",
        b"MAXSERVERS",
        b"MAXTMFRESTARTS",
    ];
    const INDEX: &[&[u8]] = &[
        &[],
        &[1],
        &[],
        &[],
        &[],
        &[],
        &[],
        &[],
        &[],
        &[6],
        &[],
        &[],
        &[],
        &[8, 9],
        &[],
        &[],
        &[7],
        &[],
        &[],
        &[0, 2, 5],
        &[3, 4],
    ];
    Table {
        rows: ROWS,
        index: INDEX,
    }
}

/// The texts of the refusals, in the order of the fault codes. docs/reference/DECK.md tells of each.
pub fn refusal_texts() -> Table<35>
    ensures { result ≡ refusal_texts }
{
    const ROWS: &[&[u8]] = rows![
        b"BAD CHARACTER",
        b"UNCLOSED LITERAL",
        b"WORD TOO LONG",
        b"NUMBER TOO LONG",
        b"BAD PICTURE",
        b"BAD DATA ENTRY",
        b"NAME TWICE",
        b"UNKNOWN ITEM",
        b"STORAGE TOO LARGE",
        b"NO SUCH FORM",
        b"NO IF",
        b"PARAGRAPH TWICE",
        b"FIELD OUTSIDE",
        b"FIELDS OVERLAP",
        b"BAD CLAUSE",
        b"BAD DIVISION",
        b"NOT FOR SERVERS",
        b"UNKNOWN PARAGRAPH",
        b"UNKNOWN NAME",
        b"WRONG LENGTH",
        b"WRONG KIND",
        b"BAD LOG LINE",
        b"BAD FAILURE LINE",
        b"BAD COMMAND",
        b"ADDED TWICE",
        b"UNKNOWN OBJECT",
        b"OUT OF RANGE",
        b"BAD START",
        b"INPUT TOO LONG",
        b"BAD SECTION",
        b"END MISSING",
        b"SECTION TWICE",
        b"BAD RECORD",
        b"BAD ENTRY",
        b"TOO MANY",
    ];
    const INDEX: &[&[u8]] = &[
        &[],
        &[24],
        &[0, 4, 5, 14, 15, 21, 22, 23, 27, 29, 32, 33],
        &[],
        &[],
        &[30],
        &[12, 13],
        &[],
        &[],
        &[28],
        &[],
        &[],
        &[],
        &[],
        &[3, 6, 9, 10, 16],
        &[26],
        &[11],
        &[],
        &[],
        &[8, 31],
        &[34],
        &[1, 7, 17, 18, 25],
        &[],
        &[2, 19, 20],
    ];
    Table {
        rows: ROWS,
        index: INDEX,
    }
}

/// The text of the refusal with a code.
pub fn refusal_text(code: FaultCode) -> &'static [u8]
    ensures { result.now ≡ text code }
{
    refusal_texts().row(code.place())
}

/// The order of the codes is that of the texts: each code's text stands at its place.
pub fn refusal_text_laws()
    ensures { (code : FaultCode) → slice_get refusal_texts (place code) ≡ Some (text code) }
{}
