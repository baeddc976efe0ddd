ghost use Rattle.std.specs.Prelude.{◌≡◌, ◌≤◌, ◌<◌, ◌+◌, ◌-◌, ◌/◌, ◌%◌, ◌^◌, ◌*◌, List, ℕ, length, take, drop, filter, count_by, slice_index_or};
ghost use Rattle.std.specs.Char.{is_ascii_digit};
ghost use Rattle.pw_picture.specs.Stored.{digits_of};
ghost use Rattle.pw_code.specs.Places.{IsOperand, picture_of};
ghost use Rattle.pw_code_meaning.specs.Reading.{value_in};
ghost use Rattle.pw_tree_meaning.specs.Values.{operand_text, without_sign};
ghost use Rattle.pw_machine.specs.Views.{taken_by, IsSpot, IsTaken};

use crate::spot::{MachineOperand, MachineSpot};
use pw_code::operand::InstructionOperand;
use pw_code::place::Kind;
use pw_number::power::power_of_ten;

/// How many characters in front of an item's others are its sign, which a text leaves out.
#[inline(always)]
pub fn sign_of(kind: Kind) -> usize
    ensures bound { result ≤ 1 }
    ensures sign { (size : ℕ) (chars : List ℕ) → without_sign (picture_of kind size) chars ≡ drop result chars }
{
    match kind {
        Kind::Number { signed: true, .. } => 1,
        _ => 0,
    }
}

/// How many digits a number has as it is written.
pub fn digits_in(spelling: &[u8]) -> usize
    ensures { result ≡ length (filter is_ascii_digit spelling.now) }
{
    spelling.iter().filter(|byte| byte.is_ascii_digit()).count()
}

/// The digit at a place among those of a number as it is written, and a space past the last.
pub fn digit_of_spelling(spelling: &[u8], place: usize) -> u8
    ensures { result ≡ slice_index_or (filter is_ascii_digit spelling.now) place 32 }
{
    let mut left = place;
    for byte in spelling {
        if byte.is_ascii_digit() {
            if left == 0 {
                return *byte;
            }
            left -= 1;
        }
    }
    b' '
}

/// The digit at a place among so many of a value, and a space past the last.
pub fn digit_of_value(digits: u8, value: u32, place: usize) -> u8
    requires { digits ≤ 5 }
    ensures { result ≡ slice_index_or (digits_of digits value) place 32 }
{
    if place < digits as usize {
        let behind = digits - 1 - place as u8;
        b'0' + (value as u128 / power_of_ten(behind) % 10) as u8
    } else {
        b' '
    }
}

/// The character at a place of an item without its sign, and a space past the last.
fn char_at(storage: &[u8], spot: MachineSpot, place: usize) -> u8
    requires { IsSpot (length storage.now) spot }
    ensures { result ≡ slice_index_or (without_sign (picture_of spot.kind spot.size) (take spot.size (drop spot.at storage.now))) place 32 }
{
    let sign = sign_of(spot.kind);
    let size = spot.size.saturating_sub(sign);
    if place < size {
        storage[spot.at + sign + place]
    } else {
        b' '
    }
}

/// How many characters an operand has as a text.
pub fn text_len(storage: &[u8], operand: &InstructionOperand, found: MachineOperand) -> usize
    requires { IsTaken (length storage.now) found }
    ensures { result ≡ length (operand_text (value_in storage.now (taken_by operand.now found))) }
{
    match found {
        MachineOperand::Stored(spot) => spot.size.saturating_sub(sign_of(spot.kind)),
        MachineOperand::Register { digits, .. } => digits as usize,
        MachineOperand::Fixed => match operand {
            InstructionOperand::Number { spelling, .. } => digits_in(spelling.as_slice()),
            InstructionOperand::Text(chars) => chars.len(),
            _ => 1,
        },
    }
}

/// The character at a place of a text, and a space past the last.
fn char_of(text: &[u8], place: usize) -> u8
    ensures { result ≡ slice_index_or text.now place 32 }
{
    if place < text.len() {
        text[place]
    } else {
        b' '
    }
}

/// The character at a place of an operand as a text, and a space past the last.
pub fn text_char(
    storage: &[u8],
    operand: &InstructionOperand,
    found: MachineOperand,
    place: usize,
) -> u8
    requires { IsTaken (length storage.now) found }
    ensures { result ≡ slice_index_or (operand_text (value_in storage.now (taken_by operand.now found))) place 32 }
{
    match found {
        MachineOperand::Stored(spot) => char_at(storage, spot, place),
        MachineOperand::Register { digits, value } => digit_of_value(digits, value, place),
        MachineOperand::Fixed => match operand {
            InstructionOperand::Number { spelling, .. } => digit_of_spelling(
                spelling.as_slice(),
                place,
            ),
            InstructionOperand::Text(chars) => char_of(chars.as_slice(), place),
            InstructionOperand::Zeros => char_of(b"0", place),
            _ => b' ',
        },
    }
}
