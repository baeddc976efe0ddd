ghost use Rattle.std.specs.Prelude.{◌≡◌, ◌+◌, ◌*◌, ◌≤◌, length, map, take, OnOk};
ghost use Rattle.std.specs.List.{list_all};
ghost use Rattle.pw_base.specs.First.{Gives};
ghost use Rattle.pw_base.specs.Limits.{longest_input};
ghost use Rattle.pw_sections.specs.Steps.{line_taken};
ghost use Rattle.pw_sections.specs.Records.{is_printable, printable_line, printable, record_read, records_of_text};

use crate::key::add_key;
use crate::line::next_line;
use crate::word::is_blank;
use indexmap::IndexSet;
use pw_base::bytes::Bytes;
use pw_base::fault::Refusal;
use pw_base::fault_code::FaultCode;
use pw_base::list::List;
use std::alloc::Global;

/// The most bytes of a record.
const MAX_RECORD: usize = 4_000;

/// Whether a byte is from 0x20 to 0x7E.
fn is_printable(byte: u8) -> bool
    ensures { result ≡ is_printable byte }
{
    byte >= b' ' && byte <= b'~'
}

/// Whether each byte of a line is from 0x20 to 0x7E.
fn are_printable(line: &[u8]) -> bool
    ensures { result ≡ list_all is_printable line.now }
{
    line.iter().all(|byte| is_printable(*byte))
}

/// Refuses a line with a byte outside 0x20 to 0x7E.
fn printable_line(number: u32, line: &[u8]) -> Result<(), Refusal>
    ensures { Gives (λ done. done) result (line_taken printable_line number (tt {0}) line.now) }
{
    if is_blank(line) {
        return Ok(());
    }
    if are_printable(line) {
        Ok(())
    } else {
        Err(Refusal::At {
            line: number,
            code: FaultCode::BadCharacter,
        })
    }
}

/// Whether all lines of a text have bytes from 0x20 to 0x7E alone. Its first line has the number
/// `first_line`. It refuses exactly the first line that has another byte, with 101.
pub fn printable(text: &[u8], first_line: u32) -> Result<(), Refusal>
    requires { first_line + length text.now ≤ 2 * longest_input + 1 }
    ensures { Gives (λ done. done) result (printable text.now first_line) }
{
    let mut number = first_line;
    let mut rest = text;
    while let Some((line, behind)) = next_line(rest) {
        printable_line(number, line)?;
        number += 1;
        rest = behind;
    }
    Ok(())
}

/// Reads the record of a line behind the others. An `Err` says nothing of what was read.
fn read_record<'a>(
    alloc: Global,
    number: u32,
    key: usize,
    keys: &mut IndexSet<&'a [u8]>,
    records: &mut List<Bytes>,
    line: &'a [u8],
) -> Result<(), Refusal>
    requires { map (λ key. key.now) keys.old.keys ≡ map (take key) records.old }
    ensures gives { Gives (λ done. records.new) result (record_read key number records.old line.now) }
    ensures keys { OnOk result (map (λ key. key.now) keys.new.keys ≡ map (take key) records.new) }
{
    let refusal = Refusal::At {
        line: number,
        code: FaultCode::BadRecord,
    };
    if line.len() < key || line.len() > MAX_RECORD {
        return Err(refusal);
    }
    if !add_key(keys, line.split_at(key).0)? {
        return Err(refusal);
    }
    records.push(Bytes::from_slice(alloc, line)?)?;
    Ok(())
}

/// Reads a line: one without a word says nothing. An `Err` says nothing of what was read.
fn read_line<'a>(
    alloc: Global,
    number: u32,
    key: usize,
    keys: &mut IndexSet<&'a [u8]>,
    records: &mut List<Bytes>,
    line: &'a [u8],
) -> Result<(), Refusal>
    requires { map (λ key. key.now) keys.old.keys ≡ map (take key) records.old }
    ensures gives { Gives (λ done. records.new) result (line_taken (record_read key) number records.old line.now) }
    ensures keys { OnOk result (map (λ key. key.now) keys.new.keys ≡ map (take key) records.new) }
{
    if is_blank(line) {
        Ok(())
    } else {
        read_record(alloc, number, key, keys, records, line)
    }
}

/// The records of a text whose first line has the number `first_line`, in a file whose keys have a
/// length of 1 to 255 (docs/reference/DECK.md).
///
/// It refuses exactly with the first line, with 194, whose record is shorter than its key, is longer
/// than 4,000 bytes or has a key that came before.
pub fn records(
    alloc: Global,
    key: u32,
    text: &[u8],
    first_line: u32,
) -> Result<List<Bytes>, Refusal>
    requires { first_line + length text.now ≤ 2 * longest_input + 1 }
    ensures { Gives (λ records. records) result (records_of_text key text.now first_line) }
{
    let mut keys = IndexSet::new(alloc);
    let mut records = List::new(alloc);
    let mut number = first_line;
    let mut rest = text;
    while let Some((line, behind)) = next_line(rest) {
        read_line(alloc, number, key as usize, &mut keys, &mut records, line)?;
        number += 1;
        rest = behind;
    }
    Ok(records)
}
