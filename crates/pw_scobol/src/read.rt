ghost use Rattle.std.specs.Prelude.{◌≡◌, ◌+◌, ◌≤◌, All, IfOk, length, map};
ghost use Rattle.pw_base.specs.First.{Gives};
ghost use Rattle.pw_base.specs.Limits.{longest_input};
ghost use Rattle.pw_code.specs.Fields.{IsTable};
ghost use Rattle.pw_divisions.specs.Names.{upper_name};
ghost use Rattle.pw_scobol.specs.Requesters.{requester_of};
ghost use Rattle.pw_scobol.specs.Using.{IsParameter};

use crate::requester::Requester;
use pw_base::bytes::Bytes;
use pw_base::fault::Refusal;
use pw_base::list::List;
use pw_base::memory::Memory;
use pw_data::read::layout;
use pw_divisions::divisions::divide;
use pw_divisions::names::upper_name;
use pw_forms::read::procedure;
use pw_screen::read::screens;
use pw_text::token::Token;
use pw_text::tokens::tokens;
use std::alloc::Global;

/// The names that tokens are, in upper case.
fn upper_names(alloc: Global, text: &[u8], tokens: &[Token]) -> Result<List<Bytes>, Memory>
    ensures { IfOk result (λ names. names ≡ map (upper_name text.now) tokens.now) }
{
    let mut names = List::new(alloc);
    for token in tokens {
        names.push(upper_name(alloc, text, *token)?)?;
    }
    Ok(names)
}

/// The requester of a name, in upper case, whose source is a text that begins on a line. Its screens
/// are those of a program with its storage (`IsTable`), and each name of USING is that of an item of
/// level 01 in LINKAGE SECTION (`IsParameter`).
///
/// It refuses exactly with the fault of the first pass that has one: the tokens, 101 to 104; the
/// divisions, 151; the data, 111, 121, 122 and 124; the screens, 111, 122, 123 and 141 to 143; the
/// procedure, 122 and 131 to 133. A pass gives its first fault, by line and on one line by code. The
/// rules stand in `docs/reference/LANGUAGE.md` and in the pages that it names.
pub fn requester(
    alloc: Global,
    name: &[u8],
    text: &[u8],
    first_line: u32,
) -> Result<Requester, Refusal>
    requires size { length text.now ≤ longest_input }
    requires lines { (1 ≤ first_line) × (first_line ≤ longest_input + 1) }
    ensures requester { Gives (λ program. program) result
        (requester_of name.now text.now first_line) }
    ensures screens { IfOk result (λ program.
        All (IsTable (length program.layout.storage)) program.screens) }
    ensures parameters { IfOk result (λ program. All (IsParameter program.layout) program.using) }
{
    let tokens = tokens(alloc, text, first_line)?;
    let divisions = divide(alloc, false, name, text, &tokens, first_line)?;
    // What is light is taken first, so that few ways out let go of a layout or of screens.
    let name = Bytes::from_slice(alloc, name)?;
    let using = upper_names(alloc, text, divisions.using_names)?;
    let layout = layout(alloc, text, divisions.stored, false)?;
    let screens = screens(alloc, text, divisions.screens, &layout)?;
    let procedure = procedure(alloc, text, divisions.procedure, false)?;
    Ok(Requester {
        name,
        layout,
        screens: List::from_vec(screens),
        using,
        procedure,
    })
}
