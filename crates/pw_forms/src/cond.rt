use crate::operand::Operand;
use pw_base::list::List;

/// How a comparison compares.
#[derive(Clone, Copy, Debug, PartialEq, Eq)]
pub enum Operator {
    Equal,
    Less,
    Greater,
    LessEqual,
    GreaterEqual,
}

/// What is tested of one operand or of two.
#[derive(Debug, Drop)]
pub enum ComparisonForm {
    /// `negated`: it holds where the comparison by the operator does not.
    Compare {
        left: Operand,
        negated: bool,
        operator: Operator,
        right: Operand,
    },
    Numeric {
        operand: Operand,
        negated: bool,
    },
}

/// A condition as it is written: it holds where in one of its lists each comparison does.
#[derive(Debug, Drop)]
pub struct ConditionForm {
    pub any: List<List<ComparisonForm>>,
}
