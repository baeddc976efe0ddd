//! The lines of the report, straight behind its text. An `Err` of any call may leave a part of a line there.

ghost use Rattle.std.specs.Prelude.{◌≡◌, ◌<◌, ◌++◌, ◌∷◌, [], length, if◌then◌else◌, codes, OnOk};
ghost use Rattle.std.specs.Fmt.{decimal};
ghost use Rattle.pw_event.specs.Line.{IsNamed, sentence};
ghost use Rattle.pw_report_text.specs.Blocks.{IsBlockOf};
ghost use Rattle.pw_report_text.specs.Lines.{block_line, entry_line, header, how_text, last_line, line, record_line, refresh_part};

use pw_base::bytes::Bytes;
use pw_base::memory::Memory;
use pw_code::lock::LockRule;
use pw_code::system::System;
use pw_event::event::Event;
use pw_event::names::terminal_name;
use pw_event::printing::{print_ending, print_event_words};
use pw_event::writing::{print_number, print_refresh_number, print_word};
use pw_onecopy::refresh::Refresh;
use pw_serial_order::block::{Block, How};

/// Puts the line of an entry behind the text: its number in the log, and its words.
pub fn print_entry(
    text: &mut Bytes,
    system: &System,
    number: usize,
    entry: &Event,
) -> Result<(), Memory>
    requires { IsNamed system.now entry.now }
    ensures { OnOk result (text.new ≡ text.old ++ entry_line system.now number entry.now) }
{
    print_number(text, number as u64)?;
    print_event_words(text, system, entry)?;
    text.push(b'\n')
}

/// Puts the line of a block behind the text.
pub fn print_block(text: &mut Bytes, system: &System, block: &Block) -> Result<(), Memory>
    requires { IsBlockOf system.now block.now }
    ensures { OnOk result (text.new ≡ text.old ++ block_line system.now block.now) }
{
    match *block {
        Block::Out(terminal) => {
            print_word(text, b"OUT")?;
            print_last_word(text, terminal_name(system, terminal))
        }
        Block::Ended {
            terminal,
            unit,
            how,
        } => print_unit(text, terminal_name(system, terminal), unit, how),
        Block::Done(terminal, ending) => {
            print_word(text, b"DONE")?;
            print_word(text, terminal_name(system, terminal))?;
            print_ending(text, system, ending)?;
            text.push(b'\n')
        }
    }
}

/// Puts the last word of a line and the line's end behind the text.
fn print_last_word(text: &mut Bytes, word: &[u8]) -> Result<(), Memory>
    ensures { OnOk result (text.new ≡ text.old ++ line word.now) }
{
    text.extend(word)?;
    text.push(b'\n')
}

/// Puts the line of an attempt behind the text.
fn print_unit(text: &mut Bytes, name: &[u8], unit: u32, how: How) -> Result<(), Memory>
    ensures { OnOk result (text.new ≡ text.old
        ++ line (sentence (codes "UNIT" ∷ name.now ∷ decimal unit ∷ how_text how ∷ []))) }
{
    print_word(text, b"UNIT")?;
    print_word(text, name)?;
    print_number(text, unit.into())?;
    print_last_word(text, how_text(how))
}

/// The word of how an attempt is over.
fn how_text(how: How) -> &'static [u8]
    ensures { result.now ≡ how_text how }
{
    match how {
        How::Commit => b"COMMIT",
        How::Dropped => b"DROP",
        How::Restart => b"RESTART",
        How::Left => b"LEFT",
    }
}

/// Puts the lines of a refresh behind the text: its terminal and number, and its rows.
pub fn print_refresh(text: &mut Bytes, system: &System, refresh: &Refresh) -> Result<(), Memory>
    requires { refresh.now.terminal < length system.now.terminals }
    ensures { OnOk result (text.new ≡ text.old ++ refresh_part system.now refresh.now) }
{
    print_word(text, b"SCREEN")?;
    print_word(text, terminal_name(system, refresh.terminal))?;
    print_refresh_number(text, refresh.phase, refresh.attempt, refresh.k)?;
    text.push(b'\n')?;
    text.extend(refresh.image.lines())
}

/// Puts the line of a record behind the text.
pub fn print_record(text: &mut Bytes, content: &[u8]) -> Result<(), Memory>
    ensures { OnOk result (text.new ≡ text.old ++ record_line content.now) }
{
    text.push(b'|')?;
    print_last_word(text, content)
}

/// Puts the line of a file's name behind the text.
pub fn print_file_name(text: &mut Bytes, name: &[u8]) -> Result<(), Memory>
    ensures { OnOk result (text.new ≡ text.old ++ line (sentence (codes "FILE" ∷ name.now ∷ []))) }
{
    print_word(text, b"FILE")?;
    print_last_word(text, name)
}

/// The header of a log under this rule.
pub fn header(rule: LockRule) -> &'static [u8]
    ensures { result.now ≡ header rule }
{
    match rule {
        LockRule::ReadersShare => b"PATHWAY LOG 2\n",
        LockRule::AllExclusive => b"",
    }
}

/// The last line of a report.
pub fn last_line(finished: bool) -> &'static [u8]
    ensures { result.now ≡ last_line finished }
{
    if finished {
        b"FINISHED\n"
    } else {
        b"UNFINISHED\n"
    }
}
