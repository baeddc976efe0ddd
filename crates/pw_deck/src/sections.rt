ghost use Rattle.std.specs.Prelude.{◌≡◌, ◌+◌, ◌≤◌, length};
ghost use Rattle.pw_base.specs.First.{Gives};
ghost use Rattle.pw_base.specs.Limits.{longest_input};
ghost use Rattle.pw_sections.specs.Steps.{line_taken};
ghost use Rattle.pw_sections.specs.Parts.{sections, IsAtSection};
ghost use Rattle.pw_deck.specs.Parts.{front_line, front_read, sections_read, no_parts, parts_of};

use crate::parts::Parts;
use pw_base::fault::Refusal;
use pw_base::fault_code::FaultCode;
use pw_deck_tables::piece::line_count;
use pw_sections::line::next_line;
use pw_sections::part::{next_section, split_front};
use pw_sections::word::is_blank;
use std::alloc::Global;

/// Refuses a line in front of the first section, if a word stands on it.
fn read_front_line(number: u32, line: &[u8]) -> Result<(), Refusal>
    ensures { Gives (λ done. done) result (line_taken front_line number (tt {0}) line.now) }
{
    if is_blank(line) {
        Ok(())
    } else {
        Err(Refusal::At {
            line: number,
            code: FaultCode::BadSection,
        })
    }
}

/// Refuses the first line in front of the first section that has a word.
fn read_front(text: &[u8]) -> Result<(), Refusal>
    requires { length text.now ≤ longest_input }
    ensures { Gives (λ done. done) result (front_read text.now) }
{
    let mut number = 1;
    let mut rest = text;
    while let Some((line, behind)) = next_line(rest) {
        read_front_line(number, line)?;
        number += 1;
        rest = behind;
    }
    Ok(())
}

/// Reads sections one after the other behind others, up to the deck's end. The first has the line
/// `first_line`.
fn read_sections<'a>(
    alloc: Global,
    start: Parts<'a>,
    text: &'a [u8],
    first_line: u32,
) -> Result<Parts<'a>, Refusal>
    requires lines { (1 ≤ first_line) × (first_line + length text.now ≤ longest_input + 1) }
    requires at_section { IsAtSection text.now }
    ensures { Gives (λ parts. parts) result (sections_read start.entry first_line (sections text.now)) }
{
    let mut parts = start;
    let mut line = first_line;
    let mut rest = text;
    while let Some((section, behind)) = next_section(rest) {
        parts.read_section(alloc, line, section)?;
        if parts.has_end {
            return Ok(parts);
        }
        line += line_count(section);
        rest = behind;
    }
    Ok(parts)
}

/// What the sections of a deck say, each read once, in text order; what follows the deck's end is not
/// read. It refuses exactly with the first fault of the first section that has one.
pub fn read_parts(alloc: Global, bytes: &[u8]) -> Result<Parts<'_>, Refusal>
    requires { length bytes.now ≤ longest_input }
    ensures { Gives (λ parts. parts) result (parts_of bytes.now) }
{
    let (front, rest) = split_front(bytes);
    read_front(front)?;
    read_sections(alloc, Parts::new(alloc), rest, 1 + line_count(front))
}
