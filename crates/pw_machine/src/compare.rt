ghost use Rattle.std.specs.Prelude.{◌≡◌, ◌≤◌, ◌<◌, ◌+◌, ◌&&◌, ◌||◌, List, ℕ, length, IfSome};
ghost use Rattle.pw_code.specs.Places.{IsOperand};
ghost use Rattle.pw_code_meaning.specs.Conditions.{are_numbers, is_zeros, compared, text_order, beside};
ghost use Rattle.pw_code_meaning.specs.Reading.{value_in};
ghost use Rattle.pw_tree_meaning.specs.Values.{Value, is_number_operand};
ghost use Rattle.pw_machine.specs.Beside.{fill_of, char_beside, size_beside};
ghost use Rattle.pw_machine.specs.Views.{taken_by, IsTaken};

use crate::numbers::chars_at;
use crate::spot::MachineOperand;
use crate::texts::{sign_of, text_char, text_len};
use crate::value::number_of;
use pw_code::operand::InstructionOperand;
use pw_code::place::Kind;
use std::cmp::Ordering;

/// SPACES and ZEROS fill: the character that fills.
pub fn fill_of(operand: &InstructionOperand, found: MachineOperand) -> Option<u8>
    ensures { (storage : List ℕ) → result ≡ fill_of (value_in storage (taken_by operand.now found)) }
{
    match found {
        MachineOperand::Fixed => match operand {
            InstructionOperand::Number { .. } | InstructionOperand::Text(_) => None,
            InstructionOperand::Zeros => Some(b'0'),
            _ => Some(b' '),
        },
        _ => None,
    }
}

/// The character at a place of an operand beside another.
fn char_beside(
    storage: &[u8],
    operand: &InstructionOperand,
    found: MachineOperand,
    place: usize,
) -> u8
    requires { IsTaken (length storage.now) found }
    ensures { result ≡ char_beside (value_in storage.now (taken_by operand.now found)) place }
{
    match fill_of(operand, found) {
        Some(fill) => fill,
        None => text_char(storage, operand, found, place),
    }
}

/// As many characters as two operands have beside each other.
fn size_beside(
    storage: &[u8],
    left: &InstructionOperand,
    a: MachineOperand,
    right: &InstructionOperand,
    b: MachineOperand,
) -> usize
    requires left { IsTaken (length storage.now) a }
    requires right { IsTaken (length storage.now) b }
    ensures { result ≡ size_beside (value_in storage.now (taken_by left.now a)) (value_in storage.now (taken_by right.now b)) }
{
    match (fill_of(left, a), fill_of(right, b)) {
        (None, None) => text_len(storage, left, a).max(text_len(storage, right, b)),
        (None, Some(_)) => text_len(storage, left, a),
        (Some(_), None) => text_len(storage, right, b),
        (Some(_), Some(_)) => 1,
    }
}

/// The characters of an item or of a text, as they are compared.
#[inline(always)]
fn piece_of<'a>(
    storage: &'a [u8],
    operand: &'a InstructionOperand,
    found: MachineOperand,
) -> Option<&'a [u8]>
    requires { IsTaken (length storage.now) found }
    ensures { IfSome result (λ piece. (other : Value) → beside (value_in storage.now (taken_by operand.now found)) other ≡ piece.now) }
{
    match found {
        MachineOperand::Stored(spot) => {
            let chars = chars_at(storage, spot.at, spot.size);
            let (_, text) = chars.split_at(sign_of(spot.kind).min(chars.len()));
            Some(text)
        }
        MachineOperand::Register { .. } => None,
        MachineOperand::Fixed => match operand {
            InstructionOperand::Text(chars) => Some(chars.as_slice()),
            _ => None,
        },
    }
}

/// How two operands compare as texts, by their bytes: at once where both are one piece, and these are equally long.
fn text_order(
    storage: &[u8],
    left: &InstructionOperand,
    a: MachineOperand,
    right: &InstructionOperand,
    b: MachineOperand,
) -> Ordering
    requires left { IsTaken (length storage.now) a }
    requires right { IsTaken (length storage.now) b }
    ensures { let one = value_in storage.now (taken_by left.now a) in let two = value_in storage.now (taken_by right.now b) in
        result ≡ text_order (beside one two) (beside two one) }
{
    match (piece_of(storage, left, a), piece_of(storage, right, b)) {
        (Some(one), Some(two)) if one.len() == two.len() => one.cmp(two),
        _ => order_by_chars(storage, left, a, right, b),
    }
}

/// How two operands compare as texts, character by character.
#[inline(never)]
fn order_by_chars(
    storage: &[u8],
    left: &InstructionOperand,
    a: MachineOperand,
    right: &InstructionOperand,
    b: MachineOperand,
) -> Ordering
    requires left { IsTaken (length storage.now) a }
    requires right { IsTaken (length storage.now) b }
    ensures { let one = value_in storage.now (taken_by left.now a) in let two = value_in storage.now (taken_by right.now b) in
        result ≡ text_order (beside one two) (beside two one) }
{
    let size = size_beside(storage, left, a, right, b);
    for place in 0..size {
        let one = char_beside(storage, left, a, place);
        let two = char_beside(storage, right, b, place);
        if one != two {
            return one.cmp(&two);
        }
    }
    Ordering::Equal
}

/// Whether an operand is a number.
fn is_number(operand: &InstructionOperand, found: MachineOperand) -> bool
    ensures { (storage : List ℕ) → result ≡ is_number_operand (value_in storage (taken_by operand.now found)) }
{
    match found {
        MachineOperand::Stored(spot) => matches!(spot.kind, Kind::Number { .. }),
        MachineOperand::Register { .. } => true,
        MachineOperand::Fixed => matches!(operand, InstructionOperand::Number { .. }),
    }
}

/// Whether an operand is ZEROS.
fn is_zeros(operand: &InstructionOperand, found: MachineOperand) -> bool
    ensures { (storage : List ℕ) → result ≡ is_zeros (value_in storage (taken_by operand.now found)) }
{
    fill_of(operand, found) == Some(b'0')
}

/// How two operands compare: numbers by value, all else as texts.
pub fn compared(
    storage: &[u8],
    left: &InstructionOperand,
    a: MachineOperand,
    right: &InstructionOperand,
    b: MachineOperand,
) -> Ordering
    requires left { IsTaken (length storage.now) a }
    requires right { IsTaken (length storage.now) b }
    requires one { IsOperand (length storage.now) left.now }
    requires two { IsOperand (length storage.now) right.now }
    ensures { result ≡ compared (value_in storage.now (taken_by left.now a)) (value_in storage.now (taken_by right.now b)) }
{
    let numbers = (is_number(left, a) && (is_number(right, b) || is_zeros(right, b)))
        || (is_zeros(left, a) && is_number(right, b));
    if numbers {
        number_of(storage, left, a).compare(&number_of(storage, right, b))
    } else {
        text_order(storage, left, a, right, b)
    }
}
