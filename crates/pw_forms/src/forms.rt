ghost use Rattle.std.specs.Prelude.{◌≡◌, codes};
ghost use Rattle.pw_forms.specs.Readers.{ReadsForm, some, up_to};
ghost use Rattle.pw_forms.specs.Operands.{operand, name, key};
ghost use Rattle.pw_forms.specs.Forms as spec;

use crate::conditions::condition;
use crate::cursor::FormCursor;
use crate::file_forms::file_form;
use crate::form::{Form, Head};
use crate::lack::Lack;
use crate::lists::{Codes, Keys, MAX_LISTED, SendCode};
use crate::mark::{StatementVerb, TerminalVerb, TransactionVerb};
use crate::operand::Operand;
use crate::operands::{code, key, name, operand, program_name};
use crate::statement::{ArithmeticForm, Operation, Statement};
use pw_base::bytes::Bytes;
use pw_base::list::List;
use std::alloc::Global;

/// One operand or more, to the end.
fn operands(alloc: Global, rest: &mut FormCursor<'_>) -> Result<List<Operand>, Lack>
    ensures { ReadsForm (some operand rest.old) result rest.new }
{
    let mut found = List::new(alloc);
    for _turn in 0..rest.left() {
        found.push(operand(alloc, rest)?)?;
        if rest.is_done() {
            return Ok(found);
        }
    }
    Err(Lack::NoForm)
}

/// `MOVE any TO item ..`
#[tactic(auto, unfolding(crate::specs::Forms::move_form))]
fn move_form(alloc: Global, line: u32, rest: &mut FormCursor<'_>) -> Result<Form, Lack>
    ensures { ReadsForm (spec.move_form line rest.old) result rest.new }
{
    let from = operand(alloc, rest)?;
    rest.expects(b"TO")?;
    let to = operands(alloc, rest)?;
    Ok(Form::Whole(Statement::Move { line, from, to }))
}

/// `GIVING item`, if it comes next.
#[tactic(auto, unfolding(crate::specs::Forms::giving))]
fn giving(alloc: Global, rest: &mut FormCursor<'_>) -> Result<Option<Operand>, Lack>
    ensures { ReadsForm (spec.giving rest.old) result rest.new }
{
    if rest.eats(b"GIVING") {
        Ok(Some(operand(alloc, rest)?))
    } else {
        Ok(None)
    }
}

/// `ON SIZE ERROR`, if it comes next.
#[tactic(auto, unfolding(crate::specs::Forms::on_size_error))]
fn on_size_error(rest: &mut FormCursor<'_>) -> Result<bool, Lack>
    ensures { ReadsForm (spec.on_size_error rest.old) result rest.new }
{
    if rest.eats(b"ON") {
        rest.expects(b"SIZE")?;
        rest.expects(b"ERROR")?;
        Ok(true)
    } else {
        Ok(false)
    }
}

/// Arithmetic, which `ON SIZE ERROR` makes one that opens a branch.
fn arithmetic_by(line: u32, opens: bool, arithmetic: ArithmeticForm) -> Form
    ensures { result ≡ spec.arithmetic_by line opens arithmetic }
{
    if opens {
        Form::Opens(Head::OnSizeError { line, arithmetic })
    } else {
        Form::Whole(Statement::Arithmetic { line, arithmetic })
    }
}

/// `num word num [GIVING item] [ON SIZE ERROR]`
#[tactic(auto, unfolding(crate::specs::Forms::arithmetic))]
fn arithmetic(
    alloc: Global,
    line: u32,
    operation: Operation,
    word: &[u8],
    rest: &mut FormCursor<'_>,
) -> Result<Form, Lack>
    ensures { ReadsForm (spec.arithmetic line operation word.now rest.old) result rest.new }
{
    let first = operand(alloc, rest)?;
    rest.expects(word)?;
    let second = operand(alloc, rest)?;
    let giving = giving(alloc, rest)?;
    let opens = on_size_error(rest)?;
    rest.ends()?;
    let arithmetic = ArithmeticForm {
        operation,
        first,
        second,
        giving,
    };
    Ok(arithmetic_by(line, opens, arithmetic))
}

/// `IF cond [THEN]`
#[tactic(auto, unfolding(crate::specs::Forms::if_form))]
fn if_form(alloc: Global, line: u32, rest: &mut FormCursor<'_>) -> Result<Form, Lack>
    ensures { ReadsForm (spec.if_form line rest.old) result rest.new }
{
    let cond = condition(alloc, rest)?;
    rest.eats(b"THEN");
    rest.ends()?;
    Ok(Form::Opens(Head::If { line, cond }))
}

/// `PERFORM p UNTIL cond`, behind UNTIL.
#[tactic(auto, unfolding(crate::specs::Forms::perform_until))]
fn perform_until(
    alloc: Global,
    line: u32,
    paragraph: Bytes,
    rest: &mut FormCursor<'_>,
) -> Result<Form, Lack>
    ensures { ReadsForm (spec.perform_until line paragraph rest.old) result rest.new }
{
    let cond = condition(alloc, rest)?;
    rest.ends()?;
    Ok(Form::Whole(Statement::PerformUntil {
        line,
        paragraph,
        cond,
    }))
}

/// `PERFORM p num TIMES`, behind the name.
#[tactic(auto, unfolding(crate::specs::Forms::perform_times))]
fn perform_times(
    alloc: Global,
    line: u32,
    paragraph: Bytes,
    rest: &mut FormCursor<'_>,
) -> Result<Form, Lack>
    ensures { ReadsForm (spec.perform_times line paragraph rest.old) result rest.new }
{
    let times = operand(alloc, rest)?;
    rest.expects(b"TIMES")?;
    rest.ends()?;
    Ok(Form::Whole(Statement::PerformTimes {
        line,
        paragraph,
        times,
    }))
}

/// `PERFORM p`, `PERFORM p UNTIL cond` or `PERFORM p num TIMES`
#[tactic(auto, unfolding(crate::specs::Forms::perform_one))]
fn perform_one(alloc: Global, line: u32, rest: &mut FormCursor<'_>) -> Result<Form, Lack>
    ensures { ReadsForm (spec.perform_one line rest.old) result rest.new }
{
    let paragraph = name(alloc, rest)?;
    if rest.eats(b"UNTIL") {
        perform_until(alloc, line, paragraph, rest)
    } else if rest.is_done() {
        Ok(Form::Whole(Statement::Perform { line, paragraph }))
    } else {
        perform_times(alloc, line, paragraph, rest)
    }
}

/// One name or more, up to DEPENDING.
fn names(alloc: Global, rest: &mut FormCursor<'_>) -> Result<List<Bytes>, Lack>
    ensures { ReadsForm (up_to (codes "DEPENDING") name rest.old) result rest.new }
{
    let mut found = List::new(alloc);
    for _turn in 0..rest.left() {
        found.push(name(alloc, rest)?)?;
        if rest.eats(b"DEPENDING") {
            return Ok(found);
        }
    }
    Err(Lack::NoForm)
}

/// `PERFORM ONE OF p .. DEPENDING ON item`, behind ONE.
#[tactic(auto, unfolding(crate::specs::Forms::perform_one_of))]
fn perform_one_of(alloc: Global, line: u32, rest: &mut FormCursor<'_>) -> Result<Form, Lack>
    ensures { ReadsForm (spec.perform_one_of line rest.old) result rest.new }
{
    rest.expects(b"OF")?;
    let paragraphs = names(alloc, rest)?;
    rest.expects(b"ON")?;
    let position = operand(alloc, rest)?;
    rest.ends()?;
    Ok(Form::Whole(Statement::PerformOneOf {
        line,
        paragraphs,
        position,
    }))
}

/// The forms of PERFORM.
#[tactic(auto, unfolding(crate::specs::Forms::perform))]
fn perform(alloc: Global, line: u32, rest: &mut FormCursor<'_>) -> Result<Form, Lack>
    ensures { ReadsForm (spec.perform line rest.old) result rest.new }
{
    if rest.eats(b"ONE") {
        perform_one_of(alloc, line, rest)
    } else {
        perform_one(alloc, line, rest)
    }
}

/// `EXIT` or `EXIT PROGRAM`
#[tactic(auto, unfolding(crate::specs::Forms::exit))]
fn exit(line: u32, rest: &mut FormCursor<'_>) -> Result<Form, Lack>
    ensures { ReadsForm (spec.exit line rest.old) result rest.new }
{
    let program = rest.eats(b"PROGRAM");
    rest.ends()?;
    if program {
        Ok(Form::Whole(Statement::ExitProgram { line }))
    } else {
        Ok(Form::Whole(Statement::Exit { line }))
    }
}

/// `STOP RUN`
#[tactic(auto, unfolding(crate::specs::Forms::stop))]
fn stop(line: u32, rest: &mut FormCursor<'_>) -> Result<Form, Lack>
    ensures { ReadsForm (spec.stop line rest.old) result rest.new }
{
    rest.expects(b"RUN")?;
    rest.ends()?;
    Ok(Form::Whole(Statement::StopRun { line }))
}

/// `DISPLAY BASE screen`, behind BASE.
#[tactic(auto, unfolding(crate::specs::Forms::display_base))]
fn display_base(alloc: Global, line: u32, rest: &mut FormCursor<'_>) -> Result<Form, Lack>
    ensures { ReadsForm (spec.display_base line rest.old) result rest.new }
{
    let screen = name(alloc, rest)?;
    rest.ends()?;
    Ok(Form::Whole(Statement::DisplayBase { line, screen }))
}

/// `DISPLAY screen` or `DISPLAY any`
#[tactic(auto, unfolding(crate::specs::Forms::display_any))]
fn display_any(alloc: Global, line: u32, rest: &mut FormCursor<'_>) -> Result<Form, Lack>
    ensures { ReadsForm (spec.display_any line rest.old) result rest.new }
{
    let shown = operand(alloc, rest)?;
    rest.ends()?;
    Ok(Form::Whole(Statement::Display { line, shown }))
}

/// The forms of DISPLAY.
#[tactic(auto, unfolding(crate::specs::Forms::display))]
fn display(alloc: Global, line: u32, rest: &mut FormCursor<'_>) -> Result<Form, Lack>
    ensures { ReadsForm (spec.display line rest.old) result rest.new }
{
    if rest.eats(b"BASE") {
        display_base(alloc, line, rest)
    } else {
        display_any(alloc, line, rest)
    }
}

/// One key or more, to the end.
fn keys(alloc: Global, rest: &mut FormCursor<'_>) -> Result<List<u8>, Lack>
    ensures { ReadsForm (some key rest.old) result rest.new }
{
    let mut found = List::new(alloc);
    for _turn in 0..rest.left() {
        found.push(key(rest)?)?;
        if rest.is_done() {
            return Ok(found);
        }
    }
    Err(Lack::NoForm)
}

/// `ACCEPT screen UNTIL key ..`
#[tactic(auto, unfolding(crate::specs::Forms::accept, crate::specs::Forms::at_most))]
fn accept(alloc: Global, line: u32, rest: &mut FormCursor<'_>) -> Result<Form, Lack>
    ensures { ReadsForm (spec.accept line rest.old) result rest.new }
{
    let screen = name(alloc, rest)?;
    rest.expects(b"UNTIL")?;
    let keys = keys(alloc, rest)?;
    if keys.len() > MAX_LISTED {
        return Err(Lack::NoForm);
    }
    let keys = Keys::new(keys);
    Ok(Form::Whole(Statement::Accept { line, screen, keys }))
}

/// `USING item ..`, or nothing.
#[tactic(auto, unfolding(crate::specs::Forms::using))]
fn using(alloc: Global, rest: &mut FormCursor<'_>) -> Result<List<Operand>, Lack>
    ensures { ReadsForm (spec.using rest.old) result rest.new }
{
    if rest.eats(b"USING") {
        operands(alloc, rest)
    } else {
        rest.ends()?;
        Ok(List::new(alloc))
    }
}

/// `CALL program [USING item ..]`
#[tactic(auto, unfolding(crate::specs::Forms::call))]
fn call(alloc: Global, line: u32, rest: &mut FormCursor<'_>) -> Result<Form, Lack>
    ensures { ReadsForm (spec.call line rest.old) result rest.new }
{
    let program = program_name(alloc, rest)?;
    let arguments = using(alloc, rest)?;
    Ok(Form::Whole(Statement::Call {
        line,
        program,
        arguments,
    }))
}

/// `CODE n YIELDS item`
#[tactic(auto, unfolding(crate::specs::Forms::code_clause))]
fn code_clause(alloc: Global, rest: &mut FormCursor<'_>) -> Result<SendCode, Lack>
    ensures { ReadsForm (spec.code_clause rest.old) result rest.new }
{
    rest.expects(b"CODE")?;
    let number = code(rest)?;
    rest.expects(b"YIELDS")?;
    let yields = operand(alloc, rest)?;
    Ok(SendCode { number, yields })
}

/// One code or more, to the end.
fn code_clauses(alloc: Global, rest: &mut FormCursor<'_>) -> Result<List<SendCode>, Lack>
    ensures { ReadsForm (some spec.code_clause rest.old) result rest.new }
{
    let mut found = List::new(alloc);
    for _turn in 0..rest.left() {
        found.push(code_clause(alloc, rest)?)?;
        if rest.is_done() {
            return Ok(found);
        }
    }
    Err(Lack::NoForm)
}

/// `SEND item TO class REPLY CODE n YIELDS item [CODE n YIELDS item] ..`
#[tactic(auto, unfolding(crate::specs::Forms::send, crate::specs::Forms::at_most))]
fn send(alloc: Global, line: u32, rest: &mut FormCursor<'_>) -> Result<Form, Lack>
    ensures { ReadsForm (spec.send line rest.old) result rest.new }
{
    let message = operand(alloc, rest)?;
    rest.expects(b"TO")?;
    let class = program_name(alloc, rest)?;
    rest.expects(b"REPLY")?;
    let codes = code_clauses(alloc, rest)?;
    if codes.len() > MAX_LISTED {
        return Err(Lack::NoForm);
    }
    let codes = Codes::new(codes);
    Ok(Form::Whole(Statement::Send {
        line,
        message,
        class,
        codes,
    }))
}

/// The word between the operands.
fn between(operation: Operation) -> &'static [u8]
    ensures { result.now ≡ spec.between operation }
{
    match operation {
        Operation::Add => b"TO",
        Operation::Subtract => b"FROM",
        Operation::Multiply => b"BY",
        Operation::Divide => b"INTO",
    }
}

/// The statement of a verb of transactions.
fn transaction(verb: TransactionVerb, line: u32) -> Statement
    ensures { result ≡ spec.transaction verb line }
{
    match verb {
        TransactionVerb::Begin => Statement::Begin { line },
        TransactionVerb::End => Statement::End { line },
        TransactionVerb::Abort => Statement::Abort { line },
        TransactionVerb::Restart => Statement::Restart { line },
    }
}

/// The form of a verb of transactions, which has nothing behind it.
#[tactic(auto, unfolding(crate::specs::Forms::transaction_form))]
fn transaction_form(
    verb: TransactionVerb,
    line: u32,
    rest: &mut FormCursor<'_>,
) -> Result<Form, Lack>
    ensures { ReadsForm (spec.transaction_form verb line rest.old) result rest.new }
{
    rest.ends()?;
    Ok(Form::Whole(transaction(verb, line)))
}

/// The form of a verb of requesters.
fn terminal_form(
    alloc: Global,
    verb: TerminalVerb,
    line: u32,
    rest: &mut FormCursor<'_>,
) -> Result<Form, Lack>
    ensures { ReadsForm (spec.terminal_form verb line rest.old) result rest.new }
{
    match verb {
        TerminalVerb::Accept => accept(alloc, line, rest),
        TerminalVerb::Call => call(alloc, line, rest),
        TerminalVerb::Display => display(alloc, line, rest),
        TerminalVerb::Send => send(alloc, line, rest),
        TerminalVerb::Transaction(verb) => transaction_form(verb, line, rest),
    }
}

/// The form of a verb, which reads the piece behind it to its end.
#[tactic(auto, unfolding(crate::specs::Forms::form))]
pub fn form(
    alloc: Global,
    verb: StatementVerb,
    line: u32,
    rest: &mut FormCursor<'_>,
) -> Result<Form, Lack>
    ensures { ReadsForm (spec.form verb line rest.old) result rest.new }
{
    match verb {
        StatementVerb::Exit => exit(line, rest),
        StatementVerb::If => if_form(alloc, line, rest),
        StatementVerb::Move => move_form(alloc, line, rest),
        StatementVerb::Perform => perform(alloc, line, rest),
        StatementVerb::Stop => stop(line, rest),
        StatementVerb::Arithmetic(operation) => {
            arithmetic(alloc, line, operation, between(operation), rest)
        }
        StatementVerb::File(verb) => file_form(alloc, verb, line, rest),
        StatementVerb::Terminal(verb) => terminal_form(alloc, verb, line, rest),
    }
}
