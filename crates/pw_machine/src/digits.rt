//! Numbers that are compared digit by digit, as they stand.

ghost use Rattle.std.specs.Prelude.{◌≡◌, ◌≤◌, length, IfSome, Some};
ghost use Rattle.std.specs.Ordering.{nat_cmp};
ghost use Rattle.pw_picture.specs.Stored.{digit_of, value_of};
ghost use Rattle.pw_code.specs.Places.{IsOperand};
ghost use Rattle.pw_code_meaning.specs.Conditions.{compared, of_two};
ghost use Rattle.pw_code_meaning.specs.Reading.{read};
ghost use Rattle.pw_machine.specs.Views.{registers_by};

use crate::numbers::chars_at;
use crate::places::are_alike;
use crate::reading::spot_of;
use crate::registers::MachineRegisters;
use pw_code::operand::InstructionOperand;
use pw_code::place::Kind;
use std::cmp::Ordering;

/// A character as a digit. One that is none counts as 0.
#[inline(always)]
fn digit_of(char: u8) -> u8
    ensures { result ≡ digit_of char }
{
    if char.is_ascii_digit() {
        char - b'0'
    } else {
        0
    }
}

/// How two characters compare as digits.
#[inline(always)]
fn order_of_two(one: u8, two: u8) -> Ordering
    ensures { result ≡ nat_cmp (digit_of one) (digit_of two) }
{
    if one == two {
        Ordering::Equal
    } else {
        digit_of(one).cmp(&digit_of(two))
    }
}

/// How two numbers of as many digits compare: as their first digits that differ.
#[inline(always)]
fn order_of_digits(one: &[u8], two: &[u8]) -> Ordering
    requires { length one.now ≡ length two.now }
    ensures { result ≡ nat_cmp (value_of 0 one.now) (value_of 0 two.now) }
{
    for place in 0..one.len() {
        let found = order_of_two(one[place], two[place]);
        if found.is_ne() {
            return found;
        }
    }
    Ordering::Equal
}

/// How two unsigned items of one kind compare: None where they are others, or a subscript is outside.
#[inline(always)]
pub fn order_alike(
    registers: MachineRegisters,
    storage: &[u8],
    left: &InstructionOperand,
    right: &InstructionOperand,
) -> Option<Ordering>
    requires left { IsOperand (length storage.now) left.now }
    requires right { IsOperand (length storage.now) right.now }
    ensures { IfSome result (λ found. Some found ≡ of_two compared (read (registers_by registers) storage.now left.now) (read (registers_by registers) storage.now right.now)) }
{
    let (InstructionOperand::Item(one), InstructionOperand::Item(two)) = (left, right) else {
        return None;
    };
    let Kind::Number { signed, .. } = one.kind else {
        return None;
    };
    if signed || !are_alike(one.kind, two.kind) {
        return None;
    }
    let first = spot_of(registers, storage, one)?;
    let second = spot_of(registers, storage, two)?;
    Some(order_of_digits(
        chars_at(storage, first.at, first.size),
        chars_at(storage, second.at, second.size),
    ))
}
