use crate::cond::ConditionForm;
use crate::lists::{Codes, Keys};
use crate::operand::Operand;
use pw_base::bytes::Bytes;
use pw_base::list::List;

/// What an arithmetic statement does with its first and its second operand.
#[derive(Clone, Copy, Debug, PartialEq, Eq)]
pub enum Operation {
    /// Adds the first to the second.
    Add,
    /// Subtracts the first from the second.
    Subtract,
    /// Multiplies the first by the second.
    Multiply,
    /// Divides the second by the first.
    Divide,
}

/// ADD, SUBTRACT, MULTIPLY or DIVIDE. The item of GIVING receives, else the second operand.
#[derive(Debug, Drop)]
pub struct ArithmeticForm {
    pub operation: Operation,
    pub first: Operand,
    pub second: Operand,
    pub giving: Option<Operand>,
}

/// One statement, with the line of its first word. Names are in upper case.
#[derive(Drop)]
pub enum Statement {
    /// `MOVE from TO to ..`
    Move {
        line: u32,
        from: Operand,
        to: List<Operand>,
    },
    /// Arithmetic without ON SIZE ERROR.
    Arithmetic {
        line: u32,
        arithmetic: ArithmeticForm,
    },
    /// Arithmetic with ON SIZE ERROR: `first` is done on a size error, else `second`.
    OnSizeError {
        line: u32,
        arithmetic: ArithmeticForm,
        first: List<Statement>,
        second: List<Statement>,
    },
    /// `IF cond [THEN]`: `first` is done where it holds, else `second`.
    If {
        line: u32,
        cond: ConditionForm,
        first: List<Statement>,
        second: List<Statement>,
    },
    /// `PERFORM paragraph`
    Perform {
        line: u32,
        paragraph: Bytes,
    },
    /// `PERFORM paragraph times TIMES`
    PerformTimes {
        line: u32,
        paragraph: Bytes,
        times: Operand,
    },
    /// `PERFORM paragraph UNTIL cond`
    PerformUntil {
        line: u32,
        paragraph: Bytes,
        cond: ConditionForm,
    },
    /// `PERFORM ONE OF paragraph .. DEPENDING ON position`
    PerformOneOf {
        line: u32,
        paragraphs: List<Bytes>,
        position: Operand,
    },
    /// `EXIT`
    Exit {
        line: u32,
    },
    /// `EXIT PROGRAM`
    ExitProgram {
        line: u32,
    },
    /// `STOP RUN`
    StopRun {
        line: u32,
    },
    /// `DISPLAY BASE screen`
    DisplayBase {
        line: u32,
        screen: Bytes,
    },
    /// `DISPLAY screen` or `DISPLAY shown`: the name of a screen stands here as that of an item.
    Display {
        line: u32,
        shown: Operand,
    },
    /// `ACCEPT screen UNTIL key ..`
    Accept {
        line: u32,
        screen: Bytes,
        keys: Keys,
    },
    /// `CALL program [USING argument ..]`
    Call {
        line: u32,
        program: Bytes,
        arguments: List<Operand>,
    },
    /// `SEND message TO class REPLY CODE n YIELDS item ..`
    Send {
        line: u32,
        message: Operand,
        class: Bytes,
        codes: Codes,
    },
    /// `BEGIN-TRANSACTION`
    Begin {
        line: u32,
    },
    /// `END-TRANSACTION`
    End {
        line: u32,
    },
    /// `ABORT-TRANSACTION`
    Abort {
        line: u32,
    },
    /// `RESTART-TRANSACTION`
    Restart {
        line: u32,
    },
    /// `READ $RECEIVE INTO into`
    Receive {
        line: u32,
        into: Operand,
    },
    /// `WRITE $RECEIVE FROM from`
    Reply {
        line: u32,
        from: Operand,
    },
    /// `READ file [WITH LOCK] KEY key INTO into`
    Read {
        line: u32,
        file: Bytes,
        locking: bool,
        key: Operand,
        into: Operand,
    },
    /// `READ NEXT file [WITH LOCK] AFTER after INTO into`
    ReadNext {
        line: u32,
        file: Bytes,
        locking: bool,
        after: Operand,
        into: Operand,
    },
    /// `WRITE file FROM from`
    Write {
        line: u32,
        file: Bytes,
        from: Operand,
    },
    /// `REWRITE file FROM from`
    Rewrite {
        line: u32,
        file: Bytes,
        from: Operand,
    },
    /// `DELETE file KEY key`
    Delete {
        line: u32,
        file: Bytes,
        key: Operand,
    },
}

/// A paragraph: its name in upper case, the line of the name, and its statements.
#[derive(Drop)]
pub struct Paragraph {
    pub name: Bytes,
    pub line: u32,
    pub body: List<Statement>,
}

/// A procedure: its paragraphs in their order.
#[derive(Drop)]
pub struct Procedure {
    pub paragraphs: List<Paragraph>,
}
