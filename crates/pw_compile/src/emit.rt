ghost use Rattle.std.specs.Prelude.{◌≡◌, ◌+◌, ◌∷◌, ◌++◌, [], IfOk, OnOk};
ghost use Rattle.pw_compile.specs.Conditions.{arithmetic_of, cond_of};
ghost use Rattle.pw_compile.specs.Emitted.{statement_code, body_code, procedure_code};
ghost use Rattle.pw_compile.specs.Sizes.{body_size};
ghost use Rattle.pw_code.specs.declared.instr.Instr.TheVariants as instr;

use crate::conditions::{arithmetic_of, cond_of};
use crate::numbers::add;
use crate::operands::{operand_of, place_in};
use crate::plan::Plan;
use crate::sizes::body_size;
use pw_base::list::List;
use pw_base::memory::Memory;
use pw_code::instr::Instr;
use pw_forms::cond::ConditionForm;
use pw_forms::statement::{ArithmeticForm, Paragraph, Statement};
use std::alloc::Global;

impl<'a> Plan<'a> {
    /// The beginning of an IF.
    fn begin_if(
        &self,
        alloc: Global,
        code: &mut List<Instr>,
        cond: &ConditionForm,
        first: &[Statement],
    ) -> Result<(), Memory>
        ensures { OnOk result (code.new ≡ code.old ++ instr.JumpUnless
            (cond_of self.now.layout cond.now) (body_size first.now + 1) ∷ []) }
    {
        let over = add(body_size(first)?, 1)?;
        let cond = cond_of(alloc, self.layout, cond)?;
        code.push(Instr::JumpUnless(cond, over))
    }

    /// The beginning of arithmetic with ON SIZE ERROR.
    fn begin_arithmetic(
        &self,
        alloc: Global,
        code: &mut List<Instr>,
        arithmetic: &ArithmeticForm,
        first: &[Statement],
    ) -> Result<(), Memory>
        ensures { OnOk result (code.new ≡ code.old ++ instr.OnSizeError
            (arithmetic_of self.now.layout arithmetic.now) (body_size first.now + 1) ∷ []) }
    {
        let over = add(body_size(first)?, 1)?;
        let arithmetic = arithmetic_of(alloc, self.layout, arithmetic)?;
        code.push(Instr::OnSizeError { arithmetic, over })
    }

    /// The jump over the second branch.
    fn pass_over(&self, code: &mut List<Instr>, second: &[Statement]) -> Result<(), Memory>
        ensures { OnOk result
            (code.new ≡ code.old ++ instr.Jump (body_size second.now) ∷ []) }
    {
        code.push(Instr::Jump(body_size(second)?))
    }

    /// A statement.
    #[cycle(emits)]
    fn emit(
        &self,
        alloc: Global,
        code: &mut List<Instr>,
        statement: &Statement,
    ) -> Result<(), Memory>
        ensures { OnOk result (code.new ≡ code.old ++ statement_code self.now statement.now) }
    {
        match statement {
            Statement::Move { from, to, .. } => code.push(self.moved(alloc, from, to)?),
            Statement::Arithmetic { arithmetic, .. } => {
                code.push(Instr::Compute(arithmetic_of(alloc, self.layout, arithmetic)?))
            }
            Statement::OnSizeError {
                arithmetic,
                first,
                second,
                ..
            } => {
                self.begin_arithmetic(alloc, code, arithmetic, first.as_slice())?;
                self.emit_body(alloc, code, first.as_slice())?;
                self.pass_over(code, second.as_slice())?;
                self.emit_body(alloc, code, second.as_slice())
            }
            Statement::If {
                cond,
                first,
                second,
                ..
            } => {
                self.begin_if(alloc, code, cond, first.as_slice())?;
                self.emit_body(alloc, code, first.as_slice())?;
                self.pass_over(code, second.as_slice())?;
                self.emit_body(alloc, code, second.as_slice())
            }
            Statement::Perform { paragraph, .. } => {
                code.push(Instr::Perform(self.turn(paragraph.as_slice())))
            }
            Statement::PerformTimes {
                paragraph,
                times,
                ..
            } => code.push(self.times(alloc, paragraph, times)?),
            Statement::PerformUntil {
                paragraph,
                cond,
                ..
            } => {
                code.push(Instr::Exit)?;
                code.push(self.until(alloc, paragraph, cond)?)
            }
            Statement::PerformOneOf {
                paragraphs,
                position,
                ..
            } => code.push(self.one_of(alloc, paragraphs, position)?),
            Statement::Exit { .. } => code.push(Instr::Exit),
            Statement::ExitProgram { .. } => code.push(Instr::ExitProgram),
            Statement::StopRun { .. } => code.push(Instr::StopRun),
            Statement::DisplayBase { screen, .. } => code.push(self.display_base(screen)?),
            Statement::Display { shown, .. } => code.push(self.display(alloc, shown)?),
            Statement::Accept { screen, keys, .. } => code.push(self.accept(alloc, screen, keys)?),
            Statement::Call {
                program,
                arguments,
                ..
            } => code.push(self.call(alloc, program, arguments)?),
            Statement::Send {
                message,
                class,
                codes,
                ..
            } => {
                code.push(self.send(alloc, message, class, codes.as_slice())?)?;
                code.push(Instr::NoCode)
            }
            Statement::Begin { .. } => code.push(Instr::Begin),
            Statement::End { .. } => code.push(Instr::End),
            Statement::Abort { .. } => code.push(Instr::Abort),
            Statement::Restart { .. } => code.push(Instr::Restart),
            Statement::Receive { into, .. } => {
                code.push(Instr::Receive(place_in(self.layout, into)))
            }
            Statement::Reply { from, .. } => {
                code.push(Instr::Reply(operand_of(alloc, self.layout, from)?))
            }
            Statement::Read {
                file,
                locking,
                key,
                into,
                ..
            } => code.push(self.read(alloc, file, *locking, key, into)?),
            Statement::ReadNext {
                file,
                locking,
                after,
                into,
                ..
            } => code.push(self.read_next(alloc, file, *locking, after, into)?),
            Statement::Write { file, from, .. } => code.push(self.write(alloc, file, from)?),
            Statement::Rewrite { file, from, .. } => code.push(self.rewrite(alloc, file, from)?),
            Statement::Delete { file, key, .. } => code.push(self.delete(alloc, file, key)?),
        }
    }

    /// The statements of a paragraph or a branch.
    #[cycle(emits)]
    fn emit_body(
        &self,
        alloc: Global,
        code: &mut List<Instr>,
        body: &[Statement],
    ) -> Result<(), Memory>
        ensures { OnOk result (code.new ≡ code.old ++ body_code self.now body.now) }
    {
        for statement in body {
            self.emit(alloc, code, statement)?;
        }
        Ok(())
    }

    /// The paragraphs, each with its end.
    fn emit_all(
        &self,
        alloc: Global,
        code: &mut List<Instr>,
        paragraphs: &[Paragraph],
    ) -> Result<(), Memory>
        ensures { OnOk result (code.new ≡ code.old ++ procedure_code self.now 0 paragraphs.now) }
    {
        let mut at = 0;
        for paragraph in paragraphs {
            let body = paragraph.body.as_slice();
            self.emit_body(alloc, code, body)?;
            code.push(Instr::ParagraphEnd(at))?;
            at = add(add(at, body_size(body)?)?, 1)?;
        }
        Ok(())
    }

    /// The instructions of the program.
    pub fn instrs(&self, alloc: Global) -> Result<List<Instr>, Memory>
        ensures { IfOk result (λ instrs. instrs
            ≡ procedure_code self.now 0 self.now.paragraphs) }
    {
        let mut code = List::new(alloc);
        self.emit_all(alloc, &mut code, self.paragraphs)?;
        Ok(code)
    }
}
