ghost use Rattle.std.specs.Prelude.{◌≡◌, ◌≤◌, ◌<◌, ◌+◌, ◌-◌, ◌^◌, pos, length, take, drop, unsigned_abs, slice_get, option_map, IfSome};
ghost use Rattle.pw_number.specs.Number.{number};
ghost use Rattle.pw_code.specs.Places.{IsOperand, picture_of};
ghost use Rattle.pw_code_meaning.specs.Reading.{value_in, chars_at, read};
ghost use Rattle.pw_tree_meaning.specs.Values.{number_of, number_of_text, number_of_item, operand_text};
ghost use Rattle.pw_machine.specs.Views.{registers_by, spot_by, taken_by, IsSpot, IsTaken};

use crate::numbers::{chars_at, digits_in};
use crate::reading::spot_of;
use crate::registers::MachineRegisters;
use crate::spot::{MachineOperand, MachineSpot};
use pw_code::operand::InstructionOperand;
use pw_code::place::Kind;
use pw_number::scaled::Scaled;
use pw_picture::picture::Picture;

/// A whole number.
fn whole(value: u64) -> Scaled
    requires { value < 10 ^ 18 }
    ensures { result ≡ number (pos value) 0 }
{
    Scaled::new(value as i128, 0).unwrap()
}

/// A text as an unsigned whole number: its last 18 characters, where one that is no digit is as 0.
#[inline(never)]
pub fn number_of_text(chars: &[u8]) -> Scaled
    ensures number { result ≡ number_of_text chars.now }
    ensures short { unsigned_abs result.units < 10 ^ 18 }
{
    let front = chars.len().saturating_sub(18);
    let (_, last) = chars.split_at(front);
    if last.is_empty() {
        whole(0)
    } else {
        digits_in(last, 0)
    }
}

/// The number in a spot.
#[inline(always)]
fn number_at(storage: &[u8], spot: MachineSpot) -> Scaled
    requires { IsSpot (length storage.now) spot }
    ensures number { result ≡ number_of_item (picture_of spot.kind spot.size) (take spot.size (drop spot.at storage.now)) }
    ensures short { unsigned_abs result.units < 10 ^ 18 }
{
    let chars = chars_at(storage, spot.at, spot.size);
    match spot.kind {
        Kind::Number {
            digits,
            places,
            signed,
        } => {
            let picture = Picture::Number {
                digits,
                places,
                signed,
            };
            picture.read_number(chars)
        }
        _ => number_of_text(chars),
    }
}

/// The number of an operand: its value, and of SPACES and ZEROS zero.
#[inline(always)]
pub fn number_of(storage: &[u8], operand: &InstructionOperand, found: MachineOperand) -> Scaled
    requires operand { IsOperand (length storage.now) operand.now }
    requires found { IsTaken (length storage.now) found }
    ensures number { result ≡ number_of (value_in storage.now (taken_by operand.now found)) }
    ensures short { unsigned_abs result.units < 10 ^ 18 }
{
    match found {
        MachineOperand::Stored(spot) => number_at(storage, spot),
        MachineOperand::Register { value, .. } => whole(value as u64),
        MachineOperand::Fixed => match operand {
            InstructionOperand::Number { value, .. } => *value,
            InstructionOperand::Text(chars) => number_of_text(chars.as_slice()),
            _ => whole(0),
        },
    }
}

/// The number of an operand at this moment, None exactly where its subscript is outside.
#[inline(always)]
pub fn number_now(
    registers: MachineRegisters,
    storage: &[u8],
    operand: &InstructionOperand,
) -> Option<Scaled>
    requires { IsOperand (length storage.now) operand.now }
    ensures number { result ≡ option_map number_of (read (registers_by registers) storage.now operand.now) }
    ensures short { IfSome result (λ number. unsigned_abs number.units < 10 ^ 18) }
{
    match operand {
        InstructionOperand::Number { value, .. } => Some(*value),
        InstructionOperand::Item(place) => {
            let spot = spot_of(registers, storage, place)?;
            Some(number_at(storage, spot))
        }
        InstructionOperand::Register(register) => Some(whole(registers.value(*register) as u64)),
        InstructionOperand::Text(chars) => Some(number_of_text(chars.as_slice())),
        _ => Some(whole(0)),
    }
}
