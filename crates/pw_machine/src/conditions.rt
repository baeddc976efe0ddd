ghost use Rattle.std.specs.Prelude.{◌≡◌, ◌≤◌, ◌<◌, Some, length, All, IfSome, List, ℕ};
ghost use Rattle.std.specs.Char.{is_ascii_digit};
ghost use Rattle.std.specs.List.{list_all};
ghost use Rattle.pw_code.specs.Places.{IsOperand, IsComparison, IsCond, picture_of};
ghost use Rattle.pw_code_meaning.specs.Conditions.{holds_by, compared, of_two, is_numeric, is_numeric_item, are_signed_digits, comparison_holds, all_hold, any_holds, code_condition_holds};
ghost use Rattle.pw_code_meaning.specs.Reading.{Registers, registers_of, value_in, read};
ghost use Rattle.pw_tree_meaning.specs.Values.{is_number_operand};
ghost use Rattle.pw_machine.specs.Views.{registers_by, taken_by, IsTaken};

use crate::compare::compared;
use crate::digits::order_alike;
use crate::numbers::chars_at;
use crate::reading::taken;
use crate::registers::MachineRegisters;
use crate::spot::MachineOperand;
use crate::value::number_now;
use pw_base::list::List;
use pw_code::cond::{Comparison, ComparisonOperator, Cond};
use pw_code::context::Context;
use pw_code::operand::InstructionOperand;
use pw_code::place::Kind;
use std::cmp::Ordering;

/// Whether a comparison holds by this operator.
fn holds_by(operator: ComparisonOperator, found: Ordering) -> bool
    ensures { result ≡ holds_by operator found }
{
    match operator {
        ComparisonOperator::Equal => found.is_eq(),
        ComparisonOperator::Less => found.is_lt(),
        ComparisonOperator::Greater => found.is_gt(),
        ComparisonOperator::LessEqual => found.is_le(),
        ComparisonOperator::GreaterEqual => found.is_ge(),
    }
}

/// Whether all characters are digits. All are looked at, so that a turn of the loop has several of them.
pub fn are_digits(chars: &[u8]) -> bool
    ensures { result ≡ list_all is_ascii_digit chars.now }
{
    let mut all = true;
    for char in chars {
        all = all & char.is_ascii_digit();
    }
    all
}

/// Whether the characters are digits behind a sign.
fn are_signed_digits(chars: &[u8]) -> bool
    ensures { result ≡ are_signed_digits chars.now }
{
    match chars {
        [] => false,
        [sign, digits @ ..] => (*sign == b'+' || *sign == b'-') && are_digits(digits),
    }
}

/// Whether an item's characters are numeric.
fn is_numeric_item(kind: Kind, chars: &[u8]) -> bool
    ensures { (size : ℕ) → result ≡ is_numeric_item (picture_of kind size) chars.now }
{
    match kind {
        Kind::Number { signed: true, .. } => are_signed_digits(chars),
        _ => are_digits(chars),
    }
}

/// Whether an operand is numeric.
fn is_numeric(storage: &[u8], operand: &InstructionOperand, found: MachineOperand) -> bool
    requires { IsTaken (length storage.now) found }
    ensures { result ≡ is_numeric (value_in storage.now (taken_by operand.now found)) }
{
    match found {
        MachineOperand::Stored(spot) => is_numeric_item(
            spot.kind,
            chars_at(storage, spot.at, spot.size),
        ),
        MachineOperand::Register { .. } => true,
        MachineOperand::Fixed => match operand {
            InstructionOperand::Number { .. } | InstructionOperand::Zeros => true,
            InstructionOperand::Text(chars) => are_digits(chars.as_slice()),
            _ => false,
        },
    }
}

/// Whether an operand is a number, whatever it says at this moment.
#[inline(always)]
fn is_number(operand: &InstructionOperand) -> bool
    ensures { (registers : Registers) (storage : List ℕ) → IfSome (read registers storage operand.now) (λ value. is_number_operand value ≡ result) }
{
    match operand {
        InstructionOperand::Item(place) => matches!(place.kind, Kind::Number { .. }),
        InstructionOperand::Register(_) | InstructionOperand::Number { .. } => true,
        _ => false,
    }
}

/// How two operands compare at this moment, None exactly where a subscript is outside: two numbers by their values.
#[inline(never)]
fn order_of_any(
    registers: MachineRegisters,
    storage: &[u8],
    left: &InstructionOperand,
    right: &InstructionOperand,
) -> Option<Ordering>
    requires left { IsOperand (length storage.now) left.now }
    requires right { IsOperand (length storage.now) right.now }
    ensures { result ≡ of_two compared (read (registers_by registers) storage.now left.now) (read (registers_by registers) storage.now right.now) }
{
    if is_number(left) && is_number(right) {
        let one = number_now(registers, storage, left)?;
        let two = number_now(registers, storage, right)?;
        return Some(one.compare(&two));
    }
    let a = taken(registers, storage, left)?;
    let b = taken(registers, storage, right)?;
    Some(compared(storage, left, a, right, b))
}

/// How two operands compare at this moment, None exactly where a subscript is outside: two numbers of one kind as they stand.
#[inline(always)]
fn order_of(
    context: &Context,
    storage: &[u8],
    left: &InstructionOperand,
    right: &InstructionOperand,
) -> Option<Ordering>
    requires left { IsOperand (length storage.now) left.now }
    requires right { IsOperand (length storage.now) right.now }
    ensures { result ≡ of_two compared (read (registers_of context.now) storage.now left.now) (read (registers_of context.now) storage.now right.now) }
{
    let alike = order_alike(MachineRegisters::of(context), storage, left, right);
    if alike.is_some() {
        return alike;
    }
    order_of_any(MachineRegisters::of(context), storage, left, right)
}

/// Whether a comparison holds at this moment, None exactly where a subscript is outside.
#[inline(always)]
fn comparison_holds(context: &Context, storage: &[u8], one: &Comparison) -> Option<bool>
    requires { IsComparison (length storage.now) one.now }
    ensures { result ≡ comparison_holds (registers_of context.now) storage.now one.now }
{
    match one {
        Comparison::Compare {
            left,
            negated,
            operator,
            right,
        } => {
            let found = order_of(context, storage, left, right)?;
            Some(holds_by(*operator, found) != *negated)
        }
        Comparison::Numeric { operand, negated } => {
            let a = taken(MachineRegisters::of(context), storage, operand)?;
            Some(is_numeric(storage, operand, a) != *negated)
        }
    }
}

/// Whether each of the comparisons holds, None exactly where a subscript is outside. All of them are read,
/// whatever one gives.
fn all_hold(context: &Context, storage: &[u8], all: &[Comparison]) -> Option<bool>
    requires { All (IsComparison (length storage.now)) all.now }
    ensures { result ≡ all_hold (registers_of context.now) storage.now all.now }
{
    let mut holds = true;
    for one in all {
        let found = comparison_holds(context, storage, one)?;
        holds = holds && found;
    }
    Some(holds)
}

/// Whether in one of the lists each comparison holds, None exactly where a subscript is outside.
#[inline(never)]
fn any_holds(context: &Context, storage: &[u8], lists: &[List<Comparison>]) -> Option<bool>
    requires { All (All (IsComparison (length storage.now))) lists.now }
    ensures { result ≡ any_holds (registers_of context.now) storage.now lists.now }
{
    let mut holds = false;
    for all in lists {
        let found = all_hold(context, storage, all.as_slice())?;
        holds = holds || found;
    }
    Some(holds)
}

/// Whether a condition holds at this moment, None exactly where a subscript is outside: one comparison at once.
pub fn holds(context: &Context, storage: &[u8], cond: &Cond) -> Option<bool>
    requires { IsCond (length storage.now) cond.now }
    ensures { result ≡ code_condition_holds (registers_of context.now) storage.now cond.now }
{
    let lists = cond.any.as_slice();
    if let [all] = lists {
        if let [one] = all.as_slice() {
            return comparison_holds(context, storage, one);
        }
    }
    any_holds(context, storage, lists)
}
