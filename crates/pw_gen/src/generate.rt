ghost use Rattle.std.specs.Prelude.{◌≡◌, ◌++◌, ◌∷◌, [], ◌<◌, ◌^◌, IfOk, OnOk};
ghost use Rattle.pw_gen.specs.Generated.{pair_line, next_number, digit_of, entry_line, entry_lines, number_after, terminal_lines, terminals_from, section_line, sections_from, text_of, generated};

use crate::lines::{put_line, put_lines};
use crate::parts::{COMMANDS, ENDING, REQUESTER, SERVER, STOCK};
use pw_base::bytes::Bytes;
use pw_base::memory::Memory;
use std::alloc::Global;

/// How many entry lines a terminal has.
const ENTRIES: u32 = 8;

/// The deck of a seed and a number of terminals (docs/guide/COMMANDS.md). From 1 to 64 terminals it is a
/// deck without a fault.
pub fn generate(alloc: Global, seed: u32, terminals: u32) -> Result<Bytes, Memory>
    ensures { IfOk result (λ deck. deck ≡ generated seed terminals) }
{
    let mut text = Bytes::new(alloc);
    put_lines(&mut text, &COMMANDS)?;
    put_terminals(alloc, &mut text, terminals)?;
    put_lines(&mut text, &REQUESTER)?;
    put_lines(&mut text, &SERVER)?;
    put_lines(&mut text, &STOCK)?;
    put_sections(alloc, &mut text, terminals, seed)?;
    put_lines(&mut text, &ENDING)?;
    Ok(text)
}

/// The command that sets a terminal's pair.
fn pair_line(terminal: u32) -> &'static [u8]
    ensures { result.now ≡ pair_line terminal }
{
    if terminal % 2 == 1 {
        b"SET TERM TCP TCP-1"
    } else {
        b"SET TERM TCP TCP-2"
    }
}

/// Puts the commands of a terminal behind a text.
fn put_terminal(alloc: Global, text: &mut Bytes, terminal: u32) -> Result<(), Memory>
    ensures { OnOk result (text.new ≡ text.old ++ text_of (terminal_lines terminal)) }
{
    let commands = format!(in alloc; "ADD TERM T{terminal}\nSTART TERM T{terminal}\n")?;
    put_line(text, pair_line(terminal))?;
    text.extend(commands.as_bytes())?;
    Ok(())
}

/// Puts the commands of all terminals behind a text.
fn put_terminals(alloc: Global, text: &mut Bytes, terminals: u32) -> Result<(), Memory>
    ensures { OnOk result (text.new ≡ text.old ++ text_of (terminals_from terminals 1)) }
{
    for number in 0..terminals {
        put_terminal(alloc, text, number + 1)?;
    }
    Ok(())
}

/// The number after another.
fn next_number(number: u32) -> u32
    ensures value { result ≡ next_number number }
    ensures bound { result < 2 ^ 31 }
{
    ((1_103_515_245 * u64::from(number) + 12_345) % (1 << 31)) as u32
}

/// The digit of a number.
fn digit_of(number: u32) -> u8
    ensures value { result ≡ digit_of number }
    ensures bound { result < 10 }
{
    (number / 65_536 % 10) as u8
}

/// Puts the entry line of a number behind a text.
fn put_entry(text: &mut Bytes, number: u32) -> Result<(), Memory>
    ensures { OnOk result (text.new ≡ text.old ++ text_of (entry_line number ∷ [])) }
{
    text.extend(b"F1 F-OP=I F-KEY=A")?;
    put_line(text, &[b'0' + digit_of(number)])
}

/// Puts a terminal's entry lines behind a text. It gives the number of the last one.
fn put_entries(text: &mut Bytes, number: u32) -> Result<u32, Memory>
    ensures lines { OnOk result (text.new ≡ text.old ++ text_of (entry_lines 8 number)) }
    ensures number { IfOk result (λ last. last ≡ number_after 8 number) }
{
    let mut last = number;
    for _entry in 0..ENTRIES {
        last = next_number(last);
        put_entry(text, last)?;
    }
    Ok(last)
}

/// Puts the section line of a terminal's entries behind a text.
fn put_heading(alloc: Global, text: &mut Bytes, terminal: u32) -> Result<(), Memory>
    ensures { OnOk result (text.new ≡ text.old ++ text_of (section_line terminal ∷ [])) }
{
    let line = format!(in alloc; "?ENTRIES T{terminal}\n")?;
    text.extend(line.as_bytes())?;
    Ok(())
}

/// Puts the sections of entries of all terminals behind a text.
fn put_sections(alloc: Global, text: &mut Bytes, terminals: u32, seed: u32) -> Result<(), Memory>
    ensures { OnOk result (text.new ≡ text.old ++ text_of (sections_from terminals 1 seed)) }
{
    let mut number = seed;
    for terminal in 0..terminals {
        put_heading(alloc, text, terminal + 1)?;
        number = put_entries(text, number)?;
    }
    Ok(())
}
