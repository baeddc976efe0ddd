use crate::copies::Duplicate;
use crate::operand::InstructionOperand;
use pw_base::list::List;
use pw_base::memory::Memory;
use std::alloc::Global;

/// How a comparison compares.
#[derive(Clone, Copy, Debug, PartialEq, Eq)]
pub enum ComparisonOperator {
    Equal,
    Less,
    Greater,
    LessEqual,
    GreaterEqual,
}

/// What is tested of one operand or of two. One that is `negated` holds where the test does not.
#[derive(Debug, Drop)]
pub enum Comparison {
    Compare {
        left: InstructionOperand,
        negated: bool,
        operator: ComparisonOperator,
        right: InstructionOperand,
    },
    /// The operand is NUMERIC.
    Numeric {
        operand: InstructionOperand,
        negated: bool,
    },
}

/// A condition: it holds where in one of its lists each comparison does, AND before OR as it is
/// written.
#[derive(Debug, Drop)]
pub struct Cond {
    pub any: List<List<Comparison>>,
}

impl Duplicate for Comparison {
    fn copy(&self, alloc: Global) -> Result<Comparison, Memory> {
        match self {
            Comparison::Compare {
                left,
                negated,
                operator,
                right,
            } => {
                let left = left.copy(alloc)?;
                let right = right.copy(alloc)?;
                Ok(Comparison::Compare {
                    left,
                    negated: *negated,
                    operator: *operator,
                    right,
                })
            }
            Comparison::Numeric { operand, negated } => {
                let operand = operand.copy(alloc)?;
                Ok(Comparison::Numeric {
                    operand,
                    negated: *negated,
                })
            }
        }
    }
}

impl Duplicate for Cond {
    fn copy(&self, alloc: Global) -> Result<Cond, Memory> {
        Ok(Cond {
            any: self.any.copy(alloc)?,
        })
    }
}
