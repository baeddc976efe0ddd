ghost use Rattle.std.specs.Prelude.{◌≡◌, flat_map};
ghost use Rattle.pw_names.specs.Order.{first};
ghost use Rattle.pw_names.specs.Faults.{own_faults, faults, paragraph_faults, program_faults};

use crate::scope::NameScope;
use pw_base::fault::Fault;
use pw_forms::statement::{Paragraph, Statement};

impl<'a> NameScope<'a> {
    /// The names and operands of a statement, without those of the statements of its branches.
    fn own(&self, statement: &Statement, known: Option<Fault>) -> Option<Fault>
        ensures { result ≡ first known (own_faults self.now statement.now) }
    {
        match statement {
            Statement::Move { line, from, to } => self.moved(*line, from, to, known),
            Statement::Arithmetic { line, arithmetic }
            | Statement::OnSizeError {
                line,
                arithmetic,
                ..
            } => self.arithmetic(*line, arithmetic, known),
            Statement::If { line, cond, .. } => self.cond(*line, cond, known),
            Statement::Perform { line, paragraph } => self.perform(*line, paragraph, known),
            Statement::PerformTimes {
                line,
                paragraph,
                times,
            } => self.perform_times(*line, paragraph, times, known),
            Statement::PerformUntil {
                line,
                paragraph,
                cond,
            } => self.perform_until(*line, paragraph, cond, known),
            Statement::PerformOneOf {
                line,
                paragraphs,
                position,
            } => self.perform_one_of(*line, paragraphs, position, known),
            Statement::DisplayBase { line, screen } | Statement::Accept { line, screen, .. } => {
                self.on_screen(*line, screen, known)
            }
            Statement::Display { line, shown } => self.display(*line, shown, known),
            Statement::Call {
                line,
                program,
                arguments,
            } => self.call(*line, program, arguments.as_slice(), known),
            Statement::Send {
                line,
                message,
                class,
                codes,
            } => self.send(*line, message, class, codes, known),
            Statement::Receive { line, into } => self.receive(*line, into, known),
            Statement::Reply { line, from } => self.reply(*line, from, known),
            Statement::Read {
                line,
                file,
                key,
                into,
                ..
            } => self.read(*line, file, key, into, known),
            Statement::ReadNext {
                line,
                file,
                after,
                into,
                ..
            } => self.read(*line, file, after, into, known),
            Statement::Write { line, file, from } | Statement::Rewrite { line, file, from } => {
                self.write(*line, file, from, known)
            }
            Statement::Delete { line, file, key } => self.delete(*line, file, key, known),
            Statement::Exit { .. }
            | Statement::ExitProgram { .. }
            | Statement::StopRun { .. }
            | Statement::Begin { .. }
            | Statement::End { .. }
            | Statement::Abort { .. }
            | Statement::Restart { .. } => known,
        }
    }

    /// A statement and its branches.
    #[cycle(statements)]
    fn statement(&self, statement: &Statement, known: Option<Fault>) -> Option<Fault>
        ensures { result ≡ first known (faults self.now statement.now) }
    {
        let known = self.own(statement, known);
        match statement {
            Statement::If { first, second, .. } => {
                let known = self.statements(first.as_slice(), known);
                self.statements(second.as_slice(), known)
            }
            Statement::OnSizeError { first, second, .. } => {
                let known = self.statements(first.as_slice(), known);
                self.statements(second.as_slice(), known)
            }
            _ => known,
        }
    }

    /// The statements of a paragraph or a branch.
    #[cycle(statements)]
    fn statements(&self, statements: &[Statement], known: Option<Fault>) -> Option<Fault>
        ensures { result ≡ first known (flat_map (faults self.now) statements.now) }
    {
        let mut found = known;
        for statement in statements {
            found = self.statement(statement, found);
        }
        found
    }

    /// The paragraphs of a program.
    fn paragraphs_of(&self, paragraphs: &[Paragraph], known: Option<Fault>) -> Option<Fault>
        ensures { result ≡ first known (flat_map (paragraph_faults self.now) paragraphs.now) }
    {
        let mut found = known;
        for paragraph in paragraphs {
            found = self.statements(paragraph.body.as_slice(), found);
        }
        found
    }

    /// The first of the fault that is known and of those of the program.
    pub fn program_fault(&self, known: Option<Fault>) -> Option<Fault>
        ensures { result ≡ first known (program_faults self.now) }
    {
        self.paragraphs_of(self.paragraphs(), known)
    }
}
