//! Counting: a few units are added to an unsigned item where it stands.

ghost use Rattle.std.specs.Prelude.{◌≡◌, ◌≤◌, ◌<◌, ◌+◌, ◌^◌, true, pos, Some, List, ℕ, length, take, drop, option_map, IfSome, if◌then◌else◌};
ghost use Rattle.std.specs.Bool.{OnFalse};
ghost use Rattle.std.specs.Char.{is_ascii_digit};
ghost use Rattle.std.specs.List.{list_all};
ghost use Rattle.pw_picture.specs.Stored.{value_of, digits_of};
ghost use Rattle.pw_number.specs.Number.{number};
ghost use Rattle.pw_terminal.specs.Shown.{written};
ghost use Rattle.pw_code.specs.Instrs.{IsArithmetic};
ghost use Rattle.pw_code.specs.Places.{IsOperand};
ghost use Rattle.pw_code_meaning.specs.Reading.{Registers, read, registers_of};
ghost use Rattle.pw_tree_meaning.specs.Values.{number_of};
ghost use Rattle.pw_machine.specs.Statements.{computed_all};
ghost use Rattle.pw_machine.specs.Views.{IsSpot};

use crate::conditions::are_digits;
use crate::places::are_one_place;
use crate::reading::spot_of;
use crate::registers::MachineRegisters;
use crate::spot::MachineSpot;
use pw_code::context::Context;
use pw_code::instr::{Arithmetic, ArithmeticOperation};
use pw_code::operand::InstructionOperand;
use pw_code::place::Kind;

/// Adds so many to the number that digits are. It is false, and all stays as it is, where that number has no room.
#[cycle(raised)]
#[inline(always)]
fn raised(digits: &mut [u8], more: u8) -> bool
    requires digits { list_all is_ascii_digit digits.old ≡ true }
    requires few { more ≤ 9 }
    ensures digits { list_all is_ascii_digit digits.new ≡ true }
    ensures sum { result ≡ true → value_of 0 digits.new ≡ value_of 0 digits.old + more }
    ensures same { OnFalse result (digits.new ≡ digits.old) }
{
    let Some((last, front)) = digits.split_last_mut() else {
        return false;
    };
    let sum = *last + more;
    if sum <= b'9' {
        *last = sum;
        return true;
    }
    let carried = carried(front);
    if carried {
        *last = sum - 10;
    }
    carried
}

/// Adds 1 to the number that digits are, which are those in front of a digit that has become 10 or more.
#[cycle(raised)]
#[inline(never)]
fn carried(digits: &mut [u8]) -> bool
    requires digits { list_all is_ascii_digit digits.old ≡ true }
    ensures digits { list_all is_ascii_digit digits.new ≡ true }
    ensures sum { result ≡ true → value_of 0 digits.new ≡ value_of 0 digits.old + 1 }
    ensures same { OnFalse result (digits.new ≡ digits.old) }
{
    raised(digits, 1)
}

/// Adds so many to the number that characters are. It is false, and all stays as it is, where that has no room, or a character
/// is no digit.
#[inline(always)]
fn count_up(digits: &mut [u8], more: u8) -> bool
    requires few { more ≤ 9 }
    ensures sum { digits.new ≡ (if result then digits_of (length digits.old) (value_of 0 digits.old + more) else digits.old) }
    ensures fits { result ≡ true → value_of 0 digits.old + more < 10 ^ length digits.old }
{
    are_digits(digits) && raised(digits, more)
}

/// Adds so many to the number in a spot. It is false, and all stays as it is, where it has no room, or is not all digits.
#[inline(always)]
fn count_in(storage: &mut [u8], spot: MachineSpot, more: u8) -> bool
    requires inside { spot.at + spot.size ≤ length storage.old }
    requires few { more ≤ 9 }
    ensures sum { storage.new ≡ (if result
        then written spot.at (digits_of spot.size (value_of 0 (take spot.size (drop spot.at storage.old)) + more)) storage.old
        else storage.old) }
    ensures fits { result ≡ true → value_of 0 (take spot.size (drop spot.at storage.old)) + more < 10 ^ spot.size }
{
    let digits = &mut storage[spot.at..spot.at + spot.size];
    count_up(digits, more)
}

/// The units of a number as it is written, where they are at most 9 at these places.
#[inline(always)]
fn few_units(operand: &InstructionOperand, places: u8) -> Option<u8>
    ensures few { IfSome result (λ units. units ≤ 9) }
    ensures number { IfSome result (λ units. (size : ℕ) (registers : Registers) (storage : List ℕ) → IsOperand size operand.now
        → Some (number (pos units) places) ≡ option_map number_of (read registers storage operand.now)) }
{
    match operand {
        InstructionOperand::Number { value, .. }
            if value.places() == places && value.units() >= 0 && value.units() <= 9 => {
            Some(value.units() as u8)
        }
        _ => None,
    }
}

/// Adds a few units to the receiver where that is their second operand too. It is false, and all stays as it is, where it is
/// not, or cannot hold the sum.
#[inline(always)]
pub fn counted(context: &Context, storage: &mut [u8], arithmetic: &Arithmetic) -> bool
    requires { IsArithmetic (length storage.old) arithmetic.now }
    ensures sum { result ≡ true → Some (Some storage.new) ≡ computed_all (registers_of context.now) storage.old arithmetic.now }
    ensures same { OnFalse result (storage.new ≡ storage.old) }
{
    let (ArithmeticOperation::Add, InstructionOperand::Item(place)) = (
        arithmetic.operation,
        &arithmetic.second,
    ) else {
        return false;
    };
    let Kind::Number { places, signed, .. } = place.kind else {
        return false;
    };
    let Some(units) = few_units(&arithmetic.first, places) else {
        return false;
    };
    if signed || !are_one_place(place, &arithmetic.receiver) {
        return false;
    }
    match spot_of(MachineRegisters::of(context), storage, place) {
        Some(spot) => count_in(storage, spot, units),
        None => false,
    }
}
