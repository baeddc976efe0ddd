ghost use Rattle.std.specs.Prelude.{◌≡◌, map, IfOk};
ghost use Rattle.pw_compile.specs.Conditions.{operator_of, comparison_of, cond_of};
ghost use Rattle.pw_compile.specs.Conditions.{operation_of, receiver_by, arithmetic_of};

use crate::operands::{operand_of, place_in};
use pw_base::list::List;
use pw_base::memory::Memory;
use pw_code::cond::{Comparison as Test, ComparisonOperator as Sign, Cond as Tests};
use pw_code::instr::{Arithmetic as Computed, ArithmeticOperation as Action};
use pw_data::layout::Layout;
use pw_forms::cond::{ComparisonForm, ConditionForm, Operator};
use pw_forms::operand::Operand;
use pw_forms::statement::{ArithmeticForm, Operation};
use std::alloc::Global;

/// How a comparison compares.
fn operator_of(operator: Operator) -> Sign
    ensures { result ≡ operator_of operator }
{
    match operator {
        Operator::Equal => Sign::Equal,
        Operator::Less => Sign::Less,
        Operator::Greater => Sign::Greater,
        Operator::LessEqual => Sign::LessEqual,
        Operator::GreaterEqual => Sign::GreaterEqual,
    }
}

/// A comparison.
fn comparison_of(
    alloc: Global,
    layout: &Layout,
    comparison: &ComparisonForm,
) -> Result<Test, Memory>
    ensures { IfOk result (λ test. test ≡ comparison_of layout.now comparison.now) }
{
    match comparison {
        ComparisonForm::Compare {
            left,
            negated,
            operator,
            right,
        } => {
            let left = operand_of(alloc, layout, left)?;
            let right = operand_of(alloc, layout, right)?;
            Ok(Test::Compare {
                left,
                negated: *negated,
                operator: operator_of(*operator),
                right,
            })
        }
        ComparisonForm::Numeric { operand, negated } => {
            let operand = operand_of(alloc, layout, operand)?;
            Ok(Test::Numeric {
                operand,
                negated: *negated,
            })
        }
    }
}

/// Comparisons of which each must hold.
fn comparisons_of(
    alloc: Global,
    layout: &Layout,
    all: &[ComparisonForm],
) -> Result<List<Test>, Memory>
    ensures { IfOk result (λ tests. tests ≡ map (comparison_of layout.now) all.now) }
{
    let mut tests = List::new(alloc);
    for comparison in all {
        tests.push(comparison_of(alloc, layout, comparison)?)?;
    }
    Ok(tests)
}

/// Lists of comparisons of which one must hold.
fn alternatives_of(
    alloc: Global,
    layout: &Layout,
    any: &[List<ComparisonForm>],
) -> Result<List<List<Test>>, Memory>
    ensures { IfOk result (λ tests. tests ≡ map (map (comparison_of layout.now)) any.now) }
{
    let mut tests = List::new(alloc);
    for list in any {
        tests.push(comparisons_of(alloc, layout, list.as_slice())?)?;
    }
    Ok(tests)
}

/// A condition.
pub fn cond_of(alloc: Global, layout: &Layout, cond: &ConditionForm) -> Result<Tests, Memory>
    ensures { IfOk result (λ tests. tests ≡ cond_of layout.now cond.now) }
{
    let any = alternatives_of(alloc, layout, cond.any.as_slice())?;
    Ok(Tests { any })
}

/// An operation.
fn operation_of(operation: Operation) -> Action
    ensures { result ≡ operation_of operation }
{
    match operation {
        Operation::Add => Action::Add,
        Operation::Subtract => Action::Subtract,
        Operation::Multiply => Action::Multiply,
        Operation::Divide => Action::Divide,
    }
}

/// The item that receives: that of GIVING, or else the second operand.
fn receiver_of<'a>(giving: &'a Option<Operand>, second: &'a Operand) -> &'a Operand
    ensures { result.now ≡ receiver_by giving.now second.now }
{
    match giving {
        Some(item) => item,
        None => second,
    }
}

/// An arithmetic statement.
pub fn arithmetic_of(
    alloc: Global,
    layout: &Layout,
    arithmetic: &ArithmeticForm,
) -> Result<Computed, Memory>
    ensures { IfOk result (λ computed. computed ≡ arithmetic_of layout.now arithmetic.now) }
{
    let first = operand_of(alloc, layout, &arithmetic.first)?;
    let second = operand_of(alloc, layout, &arithmetic.second)?;
    let receiver = place_in(layout, receiver_of(&arithmetic.giving, &arithmetic.second));
    Ok(Computed {
        operation: operation_of(arithmetic.operation),
        first,
        second,
        receiver,
    })
}
