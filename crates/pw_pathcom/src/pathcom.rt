ghost use Rattle.std.specs.Prelude.{◌≡◌, ◌+◌, ◌≤◌, length};
ghost use Rattle.pw_base.specs.First.{Gives};
ghost use Rattle.pw_base.specs.Limits.{longest_input};
ghost use Rattle.pw_pathcom.specs.Reading.{commands_of};

use crate::commands::Commands;
use crate::reading::CommandReading;
use pw_base::fault::Refusal;
use pw_sections::line::next_line;
use std::alloc::Global;

/// The commands of a text whose first line has the number `first_line` (docs/reference/DECK.md).
///
/// It refuses exactly with the first fault, by line and on one line by code: 181 for a line that is no
/// command; 182 for an ADD of a name that was added before; 184 for a number outside its range, and for
/// the first ADD above 8 TCPs, 16 classes or `MAX_TERMINALS` terminals.
pub fn pathcom(alloc: Global, text: &[u8], first_line: u32) -> Result<Commands, Refusal>
    requires size { length text.now ≤ longest_input }
    requires lines { (1 ≤ first_line) × (first_line ≤ longest_input + 1) }
    ensures { Gives (λ commands. commands) result (commands_of text.now first_line) }
{
    let mut reading = CommandReading::new(alloc);
    let mut number = first_line;
    let mut rest = text;
    while let Some((line, behind)) = next_line(rest) {
        reading.read_line(alloc, number, line)?;
        number += 1;
        rest = behind;
    }
    Ok(reading.commands)
}
