ghost use Rattle.std.specs.Prelude.{◌≡◌, codes};
ghost use Rattle.pw_forms.specs.Readers.{ReadsForm, separated};
ghost use Rattle.pw_forms.specs.Conditions as spec;

use crate::cond::{ComparisonForm, ConditionForm, Operator};
use crate::cursor::FormCursor;
use crate::lack::Lack;
use crate::operand::Operand;
use crate::operands::operand;
use pw_base::list::List;
use pw_text::token::{Token, TokenKind};
use std::alloc::Global;

/// The operator that a word is.
#[tactic(auto, unfolding(crate::specs::Conditions::word_operator))]
fn word_operator(rest: &mut FormCursor<'_>, word: Token) -> Result<Operator, Lack>
    ensures { ReadsForm (spec.word_operator word rest.old) result rest.new }
{
    if word.is_the_word(rest.text(), b"EQUAL") {
        rest.eats(b"TO");
        Ok(Operator::Equal)
    } else if word.is_the_word(rest.text(), b"GREATER") {
        rest.eats(b"THAN");
        Ok(Operator::Greater)
    } else if word.is_the_word(rest.text(), b"LESS") {
        rest.eats(b"THAN");
        Ok(Operator::Less)
    } else {
        Err(Lack::NoForm)
    }
}

/// The operator that begins with a token.
fn operator_by(rest: &mut FormCursor<'_>, first: Token) -> Result<Operator, Lack>
    ensures { ReadsForm (spec.operator_by first.kind first rest.old) result rest.new }
{
    match first.kind {
        TokenKind::Equal => Ok(Operator::Equal),
        TokenKind::Less => Ok(Operator::Less),
        TokenKind::Greater => Ok(Operator::Greater),
        TokenKind::LessEqual => Ok(Operator::LessEqual),
        TokenKind::GreaterEqual => Ok(Operator::GreaterEqual),
        _ => word_operator(rest, first),
    }
}

/// Reads an operator: a mark, or a word with the TO or THAN behind it.
#[tactic(auto, unfolding(crate::specs::Conditions::operator))]
fn operator(rest: &mut FormCursor<'_>) -> Result<Operator, Lack>
    ensures { ReadsForm (spec.operator rest.old) result rest.new }
{
    let first = rest.next()?;
    operator_by(rest, first)
}

/// The comparison of an operand with another one.
#[tactic(auto, unfolding(crate::specs::Conditions::compared))]
fn compared(
    alloc: Global,
    rest: &mut FormCursor<'_>,
    left: Operand,
    negated: bool,
) -> Result<ComparisonForm, Lack>
    ensures { ReadsForm (spec.compared left negated rest.old) result rest.new }
{
    let operator = operator(rest)?;
    let right = operand(alloc, rest)?;
    Ok(ComparisonForm::Compare {
        left,
        negated,
        operator,
        right,
    })
}

/// Reads a comparison: an operand that is NUMERIC, or one that is compared with another.
#[tactic(auto, unfolding(crate::specs::Conditions::comparison))]
fn comparison(alloc: Global, rest: &mut FormCursor<'_>) -> Result<ComparisonForm, Lack>
    ensures { ReadsForm (spec.comparison rest.old) result rest.new }
{
    let left = operand(alloc, rest)?;
    rest.eats(b"IS");
    let negated = rest.eats(b"NOT");
    if rest.eats(b"NUMERIC") {
        Ok(ComparisonForm::Numeric {
            operand: left,
            negated,
        })
    } else {
        compared(alloc, rest, left, negated)
    }
}

/// Comparisons with AND between two of them.
fn all(alloc: Global, rest: &mut FormCursor<'_>) -> Result<List<ComparisonForm>, Lack>
    ensures { ReadsForm (spec.all rest.old) result rest.new }
{
    let mut found = List::new(alloc);
    for _turn in 0..rest.left() {
        found.push(comparison(alloc, rest)?)?;
        if !rest.eats(b"AND") {
            return Ok(found);
        }
    }
    Err(Lack::NoForm)
}

/// Lists of comparisons with OR between two of them.
fn any(alloc: Global, rest: &mut FormCursor<'_>) -> Result<List<List<ComparisonForm>>, Lack>
    ensures { ReadsForm (separated (codes "OR") spec.all rest.old) result rest.new }
{
    let mut found = List::new(alloc);
    for _turn in 0..rest.left() {
        found.push(all(alloc, rest)?)?;
        if !rest.eats(b"OR") {
            return Ok(found);
        }
    }
    Err(Lack::NoForm)
}

/// A condition: comparisons joined by AND and OR, AND first.
#[tactic(auto, unfolding(crate::specs::Conditions::condition))]
pub fn condition(alloc: Global, rest: &mut FormCursor<'_>) -> Result<ConditionForm, Lack>
    ensures { ReadsForm (spec.condition rest.old) result rest.new }
{
    Ok(ConditionForm {
        any: any(alloc, rest)?,
    })
}
