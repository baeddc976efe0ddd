ghost use Rattle.std.specs.Prelude.{◌≡◌, ◌+◌, [], IfOk};
ghost use Rattle.std.specs.Option.{option_copied};
ghost use Rattle.pw_base.specs.First.{Gives};
ghost use Rattle.pw_sections.specs.Lines.{lines};
ghost use Rattle.pw_sections.specs.Steps.{each_line, line_taken};
ghost use Rattle.pw_disc.specs.Script.{after_in, begins_section, behind_prefix, behind_end, disc_line_in, disc_line_read, ends_deck, has_leading_zero, number_behind, script_of};

use crate::script::{DiscLine, DiscScript, MAX_AFTER, MAX_DISC_LINES};
use pw_base::fault::Refusal;
use pw_base::fault_code::FaultCode;
use pw_base::list::List;
use pw_base::memory::Memory;
use pw_sections::heading::{Heading, heading_of};
use pw_sections::line::next_line;
use pw_sections::word::{is_blank, number_in};
use std::alloc::Global;

/// Whether a zero stands before other digits.
fn has_leading_zero(word: &[u8]) -> bool
    ensures { result ≡ has_leading_zero word.now }
{
    matches!(word, [b'0', _, ..])
}

/// The number that a word is: 0 to `MAX_AFTER`, without leading zeros.
fn after_in(word: &[u8]) -> Option<u32>
    ensures { result ≡ after_in word.now }
{
    if has_leading_zero(word) {
        return None;
    }
    match number_in(word) {
        Some(number) if number <= MAX_AFTER => Some(number),
        _ => None,
    }
}

/// What stands behind a text, where the line begins with it.
fn behind<'a>(text: &[u8], line: &'a [u8]) -> Option<&'a [u8]>
    ensures { option_copied result ≡ behind_prefix text.now line.now }
{
    line.strip_prefix(text)
}

/// The number behind a text, where the line begins with it.
#[tactic(auto, unfolding(crate::specs::Script::number_behind))]
fn number_behind(text: &[u8], line: &[u8]) -> Option<u32>
    ensures { result ≡ number_behind text.now line.now }
{
    let word = behind(text, line)?;
    after_in(word)
}

/// What a line says; None where it says nothing.
#[tactic(auto, unfolding(crate::specs::Script::disc_line_in))]
fn disc_line_in(line: &[u8]) -> Option<DiscLine>
    ensures { result ≡ disc_line_in line.now }
{
    if let Some(after) = number_behind(b"DISC PRIMARY AFTER ", line) {
        Some(DiscLine::Primary(after))
    } else if let Some(after) = number_behind(b"DISC PRIMARY HELD ", line) {
        Some(DiscLine::Held(after))
    } else if let Some(after) = number_behind(b"DISC BACKUP AFTER ", line) {
        Some(DiscLine::Backup(after))
    } else {
        None
    }
}

/// Reads a line behind the others. An `Err` says nothing of what was read.
fn read_disc_line(number: u32, lines: &mut List<DiscLine>, line: &[u8]) -> Result<(), Refusal>
    ensures { Gives (λ done. lines.new) result (disc_line_read number lines.old line.now) }
{
    if lines.len() >= MAX_DISC_LINES {
        return Err(Refusal::At {
            line: number,
            code: FaultCode::TooMany,
        });
    }
    let Some(next) = disc_line_in(line) else {
        return Err(Refusal::At {
            line: number,
            code: FaultCode::BadFailureLine,
        });
    };
    lines.push(next)?;
    Ok(())
}

/// Reads a line: one without a word says nothing. An `Err` says nothing of what was read.
fn read_line(number: u32, lines: &mut List<DiscLine>, line: &[u8]) -> Result<(), Refusal>
    ensures { Gives (λ done. lines.new) result (line_taken disc_line_read number lines.old line.now) }
{
    if is_blank(line) {
        Ok(())
    } else {
        read_disc_line(number, lines, line)
    }
}

/// Whether a section line begins there.
fn begins_section(line: &[u8]) -> bool
    ensures { result ≡ begins_section line.now }
{
    matches!(line, [b'?', ..])
}

/// Whether a line ends a deck.
#[tactic(auto, unfolding(crate::specs::Script::ends_deck))]
fn ends_deck(alloc: Global, line: &[u8]) -> Result<bool, Memory>
    ensures { IfOk result (λ ends. ends ≡ ends_deck line.now) }
{
    if !begins_section(line) {
        return Ok(false);
    }
    Ok(matches!(heading_of(alloc, line)?, Some(Heading::End)))
}

/// The number of the next line. More lines than a number has room for are taken for want of memory.
fn next_number(number: u32) -> Result<u32, Memory>
    ensures { IfOk result (λ next. next ≡ number + 1) }
{
    number.checked_add(1).ok_or(Memory)
}

/// The text behind the line that ends a deck, and the number of its first line.
fn behind_end(alloc: Global, text: &[u8]) -> Result<(u32, &[u8]), Memory>
    ensures { IfOk result (λ own. behind_end 1 (lines text.now)
        ≡ record { first_line = own.0; lines = lines own.1.now }) }
{
    let mut number = 1;
    let mut rest = text;
    while let Some((line, behind)) = next_line(rest) {
        number = next_number(number)?;
        rest = behind;
        if ends_deck(alloc, line)? {
            return Ok((number, rest));
        }
    }
    Ok((number, rest))
}

/// The lines of a text whose first line has the number `first_line`.
fn lines_of(alloc: Global, text: &[u8], first_line: u32) -> Result<List<DiscLine>, Refusal>
    ensures { Gives (λ lines. lines) result (each_line disc_line_read first_line [] (lines text.now)) }
{
    let mut own = List::new(alloc);
    let mut number = first_line;
    let mut rest = text;
    while let Some((line, behind)) = next_line(rest) {
        read_line(number, &mut own, line)?;
        number = next_number(number)?;
        rest = behind;
    }
    Ok(own)
}

/// The disc script of a deck: the lines behind `?END` (docs/design/STORAGE.md).
///
/// It refuses exactly with the first fault by line: 196 for the 65th line that is not empty, and 172 for another one that
/// says no failure.
pub fn read_disc_script(alloc: Global, bytes: &[u8]) -> Result<DiscScript, Refusal>
    ensures { Gives (λ script. script.lines) result (script_of bytes.now) }
{
    let (first_line, text) = behind_end(alloc, bytes)?;
    let lines = lines_of(alloc, text, first_line)?;
    Ok(DiscScript { lines })
}
