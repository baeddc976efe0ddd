ghost use Rattle.std.specs.Prelude.{◌≡◌, map, true, IfOk};
ghost use Rattle.pw_compile.specs.Emitted.{has_screen, is_by_register, keeps, display_by};
ghost use Rattle.pw_compile.specs.Emitted.{display_of, call_of, reply_code, places_of};
ghost use Rattle.pw_compile.specs.Operands.{operand_of, place_in};
ghost use Rattle.pw_compile.specs.Conditions.{cond_of};
ghost use Rattle.pw_compile.specs.Plan.{turn_of, planned_class, file_of, planned_screen};
ghost use Rattle.pw_code.specs.declared.instr.Instr.TheVariants as instr;

use crate::conditions::cond_of;
use crate::operands::{operand_of, place_in, places_of};
use crate::plan::Plan;
use pw_base::bytes::Bytes;
use pw_base::list::List;
use pw_base::memory::Memory;
use pw_code::instr::{Instr, ReplyCode, Turn};
use pw_code::place::{PlaceSubscript, PlaceTable, StoragePlace};
use pw_forms::cond::ConditionForm;
use pw_forms::lists::{Keys, SendCode};
use pw_forms::operand::Operand;
use std::alloc::Global;

/// Whether a register says which occurrence is meant.
fn is_by_register(table: &Option<PlaceTable>) -> bool
    ensures { result ≡ is_by_register table.now }
{
    match table {
        Some(
            PlaceTable {
                subscript: PlaceSubscript::Register(_),
                ..
            },
        ) => true,
        Some(
            PlaceTable {
                subscript: PlaceSubscript::Item { .. } | PlaceSubscript::Number(_),
                ..
            },
        ) => false,
        None => false,
    }
}

/// Whether a CALL with these arguments keeps the registers.
fn keeps(places: &[StoragePlace]) -> bool
    ensures { result ≡ keeps places.now }
{
    places.iter().any(|place| is_by_register(&place.table))
}

impl<'a> Plan<'a> {
    /// MOVE.
    pub fn moved(&self, alloc: Global, from: &Operand, to: &List<Operand>) -> Result<Instr, Memory>
        ensures { IfOk result (λ one. one
            ≡ instr.Move (operand_of self.now.layout from.now) (places_of self.now to.now)) }
    {
        let from = operand_of(alloc, self.layout, from)?;
        let to = places_of(alloc, self.layout, to.as_slice())?;
        Ok(Instr::Move { from, to })
    }

    /// PERFORM TIMES.
    pub fn times(&self, alloc: Global, paragraph: &Bytes, times: &Operand) -> Result<Instr, Memory>
        ensures { IfOk result (λ one. one ≡ instr.PerformTimes (turn_of self.now paragraph.now)
            (operand_of self.now.layout times.now)) }
    {
        let times = operand_of(alloc, self.layout, times)?;
        let turn = self.turn(paragraph.as_slice());
        Ok(Instr::PerformTimes { turn, times })
    }

    /// The test of PERFORM UNTIL.
    pub fn until(
        &self,
        alloc: Global,
        paragraph: &Bytes,
        cond: &ConditionForm,
    ) -> Result<Instr, Memory>
        ensures { IfOk result (λ one. one ≡ instr.Until (turn_of self.now paragraph.now)
            (cond_of self.now.layout cond.now)) }
    {
        let cond = cond_of(alloc, self.layout, cond)?;
        let turn = self.turn(paragraph.as_slice());
        Ok(Instr::Until { turn, cond })
    }

    /// The paragraphs of names.
    fn turns_named(&self, alloc: Global, names: &[Bytes]) -> Result<List<Turn>, Memory>
        ensures { IfOk result (λ turns. turns ≡ map (turn_of self.now) names.now) }
    {
        let mut turns = List::new(alloc);
        for name in names {
            turns.push(self.turn(name.as_slice()))?;
        }
        Ok(turns)
    }

    /// PERFORM ONE OF.
    pub fn one_of(
        &self,
        alloc: Global,
        paragraphs: &List<Bytes>,
        position: &Operand,
    ) -> Result<Instr, Memory>
        ensures { IfOk result (λ one. one
            ≡ instr.PerformOneOf (map (turn_of self.now) paragraphs.now)
            (operand_of self.now.layout position.now)) }
    {
        let turns = self.turns_named(alloc, paragraphs.as_slice())?;
        let position = operand_of(alloc, self.layout, position)?;
        Ok(Instr::PerformOneOf { turns, position })
    }

    /// DISPLAY BASE.
    pub fn display_base(&self, screen: &Bytes) -> Result<Instr, Memory>
        ensures { IfOk result (λ one. one
            ≡ instr.DisplayScreen (planned_screen self.now screen.now) true) }
    {
        let screen = self.screen(screen.as_slice())?;
        Ok(Instr::DisplayScreen { screen, base: true })
    }

    /// DISPLAY of a name.
    fn display_name(&self, alloc: Global, name: &Bytes, shown: &Operand) -> Result<Instr, Memory>
        ensures { IfOk result (λ one. one
            ≡ display_by self.now (has_screen self.now.screens name.now) name.now shown.now) }
    {
        if self.has_screen(name.as_slice()) {
            let screen = self.screen(name.as_slice())?;
            Ok(Instr::DisplayScreen {
                screen,
                base: false,
            })
        } else {
            Ok(Instr::Display(operand_of(alloc, self.layout, shown)?))
        }
    }

    /// DISPLAY.
    pub fn display(&self, alloc: Global, shown: &Operand) -> Result<Instr, Memory>
        ensures { IfOk result (λ one. one ≡ display_of self.now shown.now) }
    {
        match shown {
            Operand::Item {
                name,
                subscript: None,
            } => self.display_name(alloc, name, shown),
            Operand::Item {
                name: _,
                subscript: Some(_),
            }
            | Operand::Number(_)
            | Operand::Text(_)
            | Operand::Spaces
            | Operand::Zeros => Ok(Instr::Display(operand_of(alloc, self.layout, shown)?)),
        }
    }

    /// ACCEPT.
    pub fn accept(&self, alloc: Global, screen: &Bytes, keys: &Keys) -> Result<Instr, Memory>
        ensures { IfOk result (λ one. one ≡ instr.Accept (planned_screen self.now screen.now) keys.now) }
    {
        let screen = self.screen(screen.as_slice())?;
        let keys = Bytes::from_slice(alloc, keys.as_slice())?;
        Ok(Instr::Accept { screen, keys })
    }

    /// CALL.
    pub fn call(
        &self,
        alloc: Global,
        program: &Bytes,
        arguments: &List<Operand>,
    ) -> Result<Instr, Memory>
        ensures { IfOk result (λ one. one ≡ call_of self.now program.now arguments.now) }
    {
        let program = self.program(program.as_slice())?;
        let arguments = places_of(alloc, self.layout, arguments.as_slice())?;
        let keeps = keeps(arguments.as_slice());
        Ok(Instr::Call {
            program,
            arguments,
            keeps,
        })
    }

    /// The codes of a SEND.
    fn reply_codes(&self, alloc: Global, codes: &[SendCode]) -> Result<List<ReplyCode>, Memory>
        ensures { IfOk result (λ found. found ≡ map (reply_code self.now) codes.now) }
    {
        let mut found = List::new(alloc);
        for code in codes {
            found.push(ReplyCode {
                number: code.number,
                yields: place_in(self.layout, &code.yields),
            })?;
        }
        Ok(found)
    }

    /// SEND.
    pub fn send(
        &self,
        alloc: Global,
        message: &Operand,
        class: &Bytes,
        codes: &[SendCode],
    ) -> Result<Instr, Memory>
        ensures { IfOk result (λ one. one ≡ instr.Send (planned_class self.now class.now)
            (operand_of self.now.layout message.now) (map (reply_code self.now) codes.now)) }
    {
        let class = self.class(class.as_slice())?;
        let message = operand_of(alloc, self.layout, message)?;
        let codes = self.reply_codes(alloc, codes)?;
        Ok(Instr::Send {
            class,
            message,
            codes,
        })
    }

    /// READ.
    pub fn read(
        &self,
        alloc: Global,
        file: &Bytes,
        locking: bool,
        key: &Operand,
        into: &Operand,
    ) -> Result<Instr, Memory>
        ensures { IfOk result (λ one. one ≡ instr.Read (file_of self.now file.now) locking
            (operand_of self.now.layout key.now) (place_in self.now.layout into.now)) }
    {
        let file = self.file(file.as_slice())?;
        let key = operand_of(alloc, self.layout, key)?;
        let into = place_in(self.layout, into);
        Ok(Instr::Read {
            file,
            locking,
            key,
            into,
        })
    }

    /// READ NEXT.
    pub fn read_next(
        &self,
        alloc: Global,
        file: &Bytes,
        locking: bool,
        after: &Operand,
        into: &Operand,
    ) -> Result<Instr, Memory>
        ensures { IfOk result (λ one. one ≡ instr.ReadNext (file_of self.now file.now) locking
            (operand_of self.now.layout after.now) (place_in self.now.layout into.now)) }
    {
        let file = self.file(file.as_slice())?;
        let after = operand_of(alloc, self.layout, after)?;
        let into = place_in(self.layout, into);
        Ok(Instr::ReadNext {
            file,
            locking,
            after,
            into,
        })
    }

    /// WRITE.
    pub fn write(&self, alloc: Global, file: &Bytes, from: &Operand) -> Result<Instr, Memory>
        ensures { IfOk result (λ one. one
            ≡ instr.Write (file_of self.now file.now) (operand_of self.now.layout from.now)) }
    {
        let file = self.file(file.as_slice())?;
        let from = operand_of(alloc, self.layout, from)?;
        Ok(Instr::Write { file, from })
    }

    /// REWRITE.
    pub fn rewrite(&self, alloc: Global, file: &Bytes, from: &Operand) -> Result<Instr, Memory>
        ensures { IfOk result (λ one. one
            ≡ instr.Rewrite (file_of self.now file.now) (operand_of self.now.layout from.now)) }
    {
        let file = self.file(file.as_slice())?;
        let from = operand_of(alloc, self.layout, from)?;
        Ok(Instr::Rewrite { file, from })
    }

    /// DELETE.
    pub fn delete(&self, alloc: Global, file: &Bytes, key: &Operand) -> Result<Instr, Memory>
        ensures { IfOk result (λ one. one
            ≡ instr.Delete (file_of self.now file.now) (operand_of self.now.layout key.now)) }
    {
        let file = self.file(file.as_slice())?;
        let key = operand_of(alloc, self.layout, key)?;
        Ok(Instr::Delete { file, key })
    }
}
