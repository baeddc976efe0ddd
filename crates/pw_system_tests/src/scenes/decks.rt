//! The decks of the scenes.

use pw_base::bytes::Bytes;
use pw_gen::lines::put_lines;
use pw_gen::parts::{REQUESTER, SERVER};
use std::alloc::Global;
use std::test::Fail;

/// A program that shows one line and stops.
pub const HELLO: &[u8] = b"?PATHCOM
ADD TCP TCP-1
START TCP TCP-1
SET TERM TCP TCP-1
SET TERM INITIAL HELLO
ADD TERM T1
START TERM T1
?SCREEN-COBOL HELLO
IDENTIFICATION DIVISION.
PROGRAM-ID. HELLO.
PROCEDURE DIVISION.
MAIN.
DISPLAY \"HELLO\".
STOP RUN.
?END
";

/// The commands of a class of two servers, a pair and one terminal.
const STOCKS: &[u8] = b"?PATHCOM
SET SERVER PROGRAM STORE-P
SET SERVER MAXSERVERS 2
ADD SERVER STORE
ADD TCP TCP-1
START TCP TCP-1
SET TERM TCP TCP-1
SET TERM INITIAL KEYS
ADD TERM T1
START TERM T1
";

/// A second terminal.
pub const SECOND: &[u8] = b"ADD TERM T2
START TERM T2
";

/// The file of the servers.
const STOCK: &[u8] = b"?FILE STOCK KEY 2
A10005
B10007
";

/// The deck of stocks with these commands and sections more. Its programs are those of a generated deck.
pub fn stocks(alloc: Global, commands: &[u8], sections: &[u8]) -> Result<Bytes, Fail> {
    let mut deck = Bytes::from_slice(alloc, STOCKS)?;
    deck.extend(commands)?;
    put_lines(&mut deck, &REQUESTER)?;
    put_lines(&mut deck, &SERVER)?;
    deck.extend(STOCK)?;
    deck.extend(sections)?;
    deck.extend(b"?END\n")?;
    Ok(deck)
}

/// A unit that is open when the entries of its terminal end.
pub const OPEN_UNIT: &[u8] = b"?ENTRIES T1\nF2\nF1 F-OP=I F-KEY=A1\n";

/// One entry for each of two terminals.
pub const BOTH: &[u8] = b"?ENTRIES T1
F1 F-OP=I F-KEY=A1
?ENTRIES T2
F1 F-OP=I F-KEY=A1
";
