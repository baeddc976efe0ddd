use crate::cond::ConditionForm;
use crate::statement::{ArithmeticForm, Statement};

/// What a piece opens: an IF, or arithmetic with ON SIZE ERROR. The line is that of its first word.
#[derive(Drop)]
pub enum Head {
    If {
        line: u32,
        cond: ConditionForm,
    },
    OnSizeError {
        line: u32,
        arithmetic: ArithmeticForm,
    },
}

/// What a piece that begins with a verb is: a whole statement, or one that opens a branch.
#[derive(Drop)]
pub enum Form {
    Whole(Statement),
    Opens(Head),
}
