ghost use Rattle.std.specs.Prelude.{◌≡◌, ◌↔◌, ◌<◌, ◌≤◌, ◌++◌, IfOk, IsTrue, OnOk, length, replicate};
ghost use Rattle.pw_base.specs.Characters.{space};
ghost use Rattle.pw_terminal.specs.Screen.{refresh_lines, row_line, row_lines, trimmed};

use pw_base::bytes::Bytes;
use pw_base::memory::Memory;
use pw_code::screen::{CELLS, COLUMNS, ROWS, ScreenImage};
use std::alloc::Global;

/// How many cells at the end of a row are looked at together.
const RUN: usize = 16;

/// Room for the line of a row of up to 20 characters, so that it takes memory once.
const SHORT_LINE: usize = 24;

/// A screen of spaces.
static BLANK_SCREEN: [u8; CELLS] = [b' '; CELLS];

/// The lines of the rows that are not blank, each as its number from 01 in two digits, `|` and the
/// row without the spaces at its end.
pub fn refresh_text(alloc: Global, image: &ScreenImage) -> Result<Bytes, Memory>
    ensures { IfOk result (λ text. text ≡ refresh_lines image.now) }
{
    let mut text = Bytes::from_vec(Vec::with_capacity(alloc, SHORT_LINE)?);
    print_rows(&mut text, image)?;
    Ok(text)
}

/// Puts the same lines behind the text. An `Err` may leave a part of them there.
pub fn print_rows(text: &mut Bytes, image: &ScreenImage) -> Result<(), Memory>
    ensures { OnOk result (text.new ≡ text.old ++ refresh_lines image.now) }
{
    let (upper, messages) = image.cells().split_at(CELLS - COLUMNS);
    print_upper(text, upper)?;
    print_row(text, ROWS as u8, messages)?;
    Ok(())
}

/// Puts the lines of the rows above that of messages behind the text. They are looked at together, and none by itself where
/// they are blank.
fn print_upper(text: &mut Bytes, upper: &[u8]) -> Result<(), Memory>
    requires { length upper.now ≡ 1840 }
    ensures { OnOk result (text.new ≡ text.old ++ row_lines 23 1 upper.now) }
{
    if is_blank(upper) {
        return Ok(());
    }
    print_each(text, upper)
}

/// Puts the lines of the same rows behind the text, one after the other. Behind a line those below it are looked at together.
fn print_each(text: &mut Bytes, upper: &[u8]) -> Result<(), Memory>
    requires { length upper.now ≡ 1840 }
    ensures { OnOk result (text.new ≡ text.old ++ row_lines 23 1 upper.now) }
{
    let mut rest = upper;
    for number in 1..ROWS as u8 {
        let (row, below) = rest.split_at(COLUMNS);
        if print_row(text, number, row)? && is_blank(below) {
            return Ok(());
        }
        rest = below;
    }
    Ok(())
}

/// Puts the line of a row behind the text, and nothing for a blank one. Says whether the row is not blank.
fn print_row(text: &mut Bytes, number: u8, row: &[u8]) -> Result<bool, Memory>
    requires number { number < 100 }
    requires row { length row.now ≤ 1920 }
    ensures { OnOk result (text.new ≡ text.old ++ row_line number (trimmed row.now)) }
{
    if is_blank(row) {
        return Ok(false);
    }
    print_trimmed(text, number, trim(row))?;
    Ok(true)
}

/// Whether some cells of a screen are spaces.
fn is_blank(cells: &[u8]) -> bool
    requires { length cells.now ≤ 1920 }
    ensures { IsTrue result ↔ (cells.now ≡ replicate (length cells.now) space) }
{
    let screen = BLANK_SCREEN.as_slice();
    cells == &screen[..cells.len()]
}

/// The row without the spaces at its end.
fn trim(row: &[u8]) -> &[u8]
    requires { length row.now ≤ 1920 }
    ensures { result.now ≡ trimmed row.now }
{
    trim_cells(trim_runs(row))
}

/// The row without the runs of 16 spaces at its end.
fn trim_runs(row: &[u8]) -> &[u8]
    requires { length row.now ≤ 1920 }
    ensures { trimmed result.now ≡ trimmed row.now }
{
    let mut kept = row;
    while kept.len() >= RUN {
        let (front, run) = kept.split_at(kept.len() - RUN);
        if is_blank(run) {
            kept = front;
        } else {
            return kept;
        }
    }
    kept
}

/// The row without the spaces at its end, which it looks at one by one.
fn trim_cells(row: &[u8]) -> &[u8]
    ensures { result.now ≡ trimmed row.now }
{
    let mut end = row.len();
    while end > 0 && row[end - 1] == b' ' {
        end -= 1;
    }
    &row[..end]
}

/// Puts the line of a trimmed row behind the text, and nothing for an empty one.
fn print_trimmed(text: &mut Bytes, number: u8, row: &[u8]) -> Result<(), Memory>
    requires { number < 100 }
    ensures { OnOk result (text.new ≡ text.old ++ row_line number row.now) }
{
    if row.is_empty() {
        return Ok(());
    }
    text.push(b'0' + number / 10)?;
    text.push(b'0' + number % 10)?;
    text.push(b'|')?;
    text.extend(row)?;
    text.push(b'\n')
}
