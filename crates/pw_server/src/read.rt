ghost use Rattle.std.specs.Prelude.{◌≡◌, ◌+◌, ◌≤◌, length};
ghost use Rattle.pw_base.specs.First.{Gives};
ghost use Rattle.pw_base.specs.Limits.{longest_input};
ghost use Rattle.pw_server.specs.Servers.{server_of};

use crate::server::Server;
use pw_base::bytes::Bytes;
use pw_base::fault::Refusal;
use pw_data::read::layout;
use pw_divisions::divisions::divide;
use pw_forms::read::procedure;
use pw_text::tokens::tokens;
use std::alloc::Global;

/// The server of a name, in upper case, whose source is a text that begins on a line.
///
/// It refuses exactly with the fault of the first pass that has one: the tokens, 101 to 104; the
/// divisions, 151; the data, 111, 121, 122 and 124; the procedure, 122, 131 to 133 and 152. A pass
/// gives its first fault, by line and on one line by code. The rules stand in `docs/reference/LANGUAGE.md` and in
/// the pages that it names.
pub fn server(alloc: Global, name: &[u8], text: &[u8], first_line: u32) -> Result<Server, Refusal>
    requires size { length text.now ≤ longest_input }
    requires lines { (1 ≤ first_line) × (first_line ≤ longest_input + 1) }
    ensures { Gives (λ program. program) result (server_of name.now text.now first_line) }
{
    let tokens = tokens(alloc, text, first_line)?;
    let divisions = divide(alloc, true, name, text, &tokens, first_line)?;
    let name = Bytes::from_slice(alloc, name)?;
    let layout = layout(alloc, text, divisions.stored, true)?;
    let procedure = procedure(alloc, text, divisions.procedure, true)?;
    Ok(Server {
        name,
        layout,
        procedure,
    })
}
