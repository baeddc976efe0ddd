ghost use Rattle.std.specs.Prelude.{◌≡◌, ◌≤◌, ◌+◌, length, take, drop, replicate, []};
ghost use Rattle.pw_picture.specs.Stored.{moved};
ghost use Rattle.pw_picture.specs.Text.{fitted};
ghost use Rattle.pw_code.specs.Places.{IsOperand, picture_of};
ghost use Rattle.pw_terminal.specs.Shown.{written};
ghost use Rattle.pw_code_meaning.specs.Moves.{move_value, move_text};
ghost use Rattle.pw_code_meaning.specs.Reading.{value_in};
ghost use Rattle.pw_tree_meaning.specs.Values.{text_in, operand_text, without_sign};
ghost use Rattle.pw_machine.specs.Views.{spot_by, taken_by, IsSpot, IsTaken};

use crate::compare::fill_of;
use crate::linkage::write_at;
use crate::numbers::chars_at;
use crate::spot::{MachineOperand, MachineSpot};
use crate::texts::{sign_of, text_char};
use crate::value::{number_of, number_of_text};
use pw_code::operand::InstructionOperand;
use pw_code::place::Kind;
use pw_number::scaled::Scaled;
use pw_picture::picture::Picture;
use pw_picture::text::move_text as fit_text;

/// Moves a number into the spot of a Number item.
#[inline(always)]
pub fn number_to(
    storage: &mut [u8],
    spot: MachineSpot,
    digits: u8,
    places: u8,
    signed: bool,
    value: Scaled,
)
    requires spot { IsSpot (length storage.old) spot }
    requires kind { spot.kind ≡ Kind.Number digits places signed }
    ensures { storage.new ≡ written spot.at (moved (Picture.Number digits places signed) value) storage.old }
{
    let picture = Picture::Number {
        digits,
        places,
        signed,
    };
    let into = &mut storage[spot.at..spot.at + spot.size];
    picture.move_to(value, into);
}

/// Writes characters as a text into a spot.
pub fn text_to(storage: &mut [u8], spot: MachineSpot, chars: &[u8])
    requires { IsSpot (length storage.old) spot }
    ensures { storage.new ≡ written spot.at (fitted spot.size chars.now) storage.old }
{
    let into = &mut storage[spot.at..spot.at + spot.size];
    fit_text(chars, into);
}

/// Moves a message, a record or a reply to a spot as a text.
pub fn move_text(storage: &mut [u8], to: MachineSpot, chars: &[u8])
    requires { IsSpot (length storage.old) to }
    ensures { storage.new ≡ move_text chars.now (spot_by to) storage.old }
{
    match to.kind {
        Kind::Number {
            digits,
            places,
            signed,
        } => number_to(storage, to, digits, places, signed, number_of_text(chars)),
        _ => text_to(storage, to, chars),
    }
}

/// Puts the same character in so many places.
fn fill_with(storage: &mut [u8], at: usize, size: usize, char: u8)
    requires { at + size ≤ length storage.old }
    ensures { storage.new ≡ written at (replicate size char) storage.old }
{
    let into = &mut storage[at..at + size];
    into.fill(char);
}

/// Copies so many characters to a place behind them.
#[inline(always)]
fn copy_behind(storage: &mut [u8], from: usize, count: usize, to: usize)
    requires apart { from + count ≤ to }
    requires inside { to + count ≤ length storage.old }
    ensures { storage.new ≡ written to (take count (drop from storage.old)) storage.old }
{
    let (front, back) = storage.split_at_mut(to);
    write_at(back, 0, chars_at(front, from, count));
}

/// Copies so many characters to a place in front of them.
#[inline(always)]
fn copy_before(storage: &mut [u8], from: usize, count: usize, to: usize)
    requires apart { to + count ≤ from }
    requires inside { from + count ≤ length storage.old }
    ensures { storage.new ≡ written to (take count (drop from storage.old)) storage.old }
{
    let (front, back) = storage.split_at_mut(from);
    write_at(front, to, chars_at(back, 0, count));
}

/// Copies so many characters to another place: in one piece where the two are apart. They may overlap.
#[inline(always)]
fn copy_to(storage: &mut [u8], from: usize, count: usize, to: usize)
    requires from { from + count ≤ length storage.old }
    requires to { to + count ≤ length storage.old }
    ensures { storage.new ≡ written to (take count (drop from storage.old)) storage.old }
{
    if from + count <= to {
        copy_behind(storage, from, count, to);
    } else if to + count <= from {
        copy_before(storage, from, count, to);
    } else {
        copy_over(storage, from, count, to);
    }
}

/// Copies so many characters to another place, one by one.
#[inline(never)]
fn copy_over(storage: &mut [u8], from: usize, count: usize, to: usize)
    requires from { from + count ≤ length storage.old }
    requires to { to + count ≤ length storage.old }
    ensures { storage.new ≡ written to (take count (drop from storage.old)) storage.old }
{
    storage.copy_within(from..from + count, to);
}

/// Moves an item, without its sign, to the spot of a text. The two may overlap.
#[inline(always)]
fn item_to(storage: &mut [u8], from: MachineSpot, to: MachineSpot)
    requires from { IsSpot (length storage.old) from }
    requires to { IsSpot (length storage.old) to }
    ensures { storage.new ≡ written to.at (fitted to.size (without_sign (picture_of from.kind from.size) (take from.size (drop from.at storage.old)))) storage.old }
{
    let sign = sign_of(from.kind).min(from.size);
    let count = (from.size - sign).min(to.size);
    copy_to(storage, from.at + sign, count, to.at);
    fill_with(storage, to.at + count, to.size - count, b' ');
}

/// Writes an operand that is no item as a text, character by character.
#[inline(never)]
fn spelled_to(
    storage: &mut [u8],
    operand: &InstructionOperand,
    found: MachineOperand,
    to: MachineSpot,
)
    requires found { IsTaken 0 found }
    requires to { IsSpot (length storage.old) to }
    ensures { storage.new ≡ written to.at (fitted to.size (operand_text (value_in [] (taken_by operand.now found)))) storage.old }
{
    for place in 0..to.size {
        storage[to.at + place] = text_char(&[], operand, found, place);
    }
}

/// Moves an operand to the spot of a text.
#[inline(always)]
pub fn text_value_to(
    storage: &mut [u8],
    operand: &InstructionOperand,
    found: MachineOperand,
    to: MachineSpot,
)
    requires found { IsTaken (length storage.old) found }
    requires to { IsSpot (length storage.old) to }
    ensures { storage.new ≡ written to.at (text_in to.size (value_in storage.old (taken_by operand.now found))) storage.old }
{
    match found {
        MachineOperand::Stored(from) => item_to(storage, from, to),
        _ => match fill_of(operand, found) {
            Some(fill) => fill_with(storage, to.at, to.size, fill),
            None => spelled_to(storage, operand, found, to),
        },
    }
}

/// Moves an operand to a spot. The two may overlap.
pub fn move_value(
    storage: &mut [u8],
    operand: &InstructionOperand,
    found: MachineOperand,
    to: MachineSpot,
)
    requires operand { IsOperand (length storage.old) operand.now }
    requires found { IsTaken (length storage.old) found }
    requires to { IsSpot (length storage.old) to }
    ensures { storage.new ≡ move_value (value_in storage.old (taken_by operand.now found)) (spot_by to) storage.old }
{
    match to.kind {
        Kind::Number {
            digits,
            places,
            signed,
        } => {
            let value = number_of(storage, operand, found);
            number_to(storage, to, digits, places, signed, value);
        }
        _ => text_value_to(storage, operand, found, to),
    }
}
