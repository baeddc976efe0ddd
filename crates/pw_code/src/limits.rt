ghost use Rattle.std.specs.Prelude.{◌≡◌};
ghost use Rattle.pw_code.specs.Limits.{most_programs, most_servers, most_classes, most_processes, most_files, most_tcps, most_terminals, most_restarts, most_entry_lines, most_pairs, last_key};

use crate::entry::{MAX_KEY, MAX_PAIRS};
use crate::screen::{CELLS, COLUMNS, ROWS};
use crate::system::{
    MAX_CLASSES, MAX_ENTRY_LINES, MAX_FILES, MAX_PROCESSES, MAX_PROGRAMS, MAX_RESTARTS,
    MAX_SERVERS, MAX_TCPS, MAX_TERMINALS,
};

/// The constants are the numbers of the table of limits (docs/reference/DECK.md), and a screen has 24 rows of 80 cells.
pub fn limit_laws()
    ensures programs { MAX_PROGRAMS ≡ most_programs }
    ensures servers { MAX_SERVERS ≡ most_servers }
    ensures classes { MAX_CLASSES ≡ most_classes }
    ensures processes { MAX_PROCESSES ≡ most_processes }
    ensures files { MAX_FILES ≡ most_files }
    ensures tcps { MAX_TCPS ≡ most_tcps }
    ensures terminals { MAX_TERMINALS ≡ most_terminals }
    ensures restarts { MAX_RESTARTS ≡ most_restarts }
    ensures entry_lines { MAX_ENTRY_LINES ≡ most_entry_lines }
    ensures pairs { MAX_PAIRS ≡ most_pairs }
    ensures keys { MAX_KEY ≡ last_key }
    ensures rows { ROWS ≡ 24 }
    ensures columns { COLUMNS ≡ 80 }
    ensures cells { CELLS ≡ 1920 }
{}
