ghost use Rattle.std.specs.Prelude.{◌≡◌, ◌∷◌, [], List, IfOk, OnOk};
ghost use Rattle.pw_base.specs.First.{least, Gives};
ghost use Rattle.pw_words.specs.Names.{has_name};
ghost use Rattle.pw_forms.specs.Faults.{is_paragraph_name, early, code_unless, piece_fault_code, taken_after, fault_at};
ghost use Rattle.pw_forms.specs.Built.{outcome};
ghost use Rattle.pw_forms.specs.Blocks.{branches};
ghost use Rattle.pw_forms.specs.Pieces.{verb_piece, piece_by};
ghost use Rattle.pw_forms.specs.Procedures.{outcome_of, procedure_of};
ghost use Rattle.pw_forms.specs.declared.piece.Placed.{Placed as PlacedPiece};

use crate::branch::OpenParagraph;
use crate::build::ParagraphBuilder;
use crate::cursor::FormCursor;
use crate::form::Form;
use crate::forms::form;
use crate::lack::Lack;
use crate::mark::{StatementVerb, TokenMark};
use crate::names::put_name;
use crate::piece::{Piece, Placed};
use crate::pieces::{first_mark, is_barred, is_period, piece_end, run_piece};
use crate::reading::ProcedureReading;
use crate::statement::Procedure;
use pw_base::fault::{Fault, Refusal, better};
use pw_base::fault_code::FaultCode;
use pw_base::memory::Memory;
use pw_text::token::Token;
use pw_words::names::Names;
use std::alloc::Global;

/// Whether a piece is the name of a paragraph.
fn is_name(piece: &Piece) -> bool
    ensures { result ≡ is_paragraph_name piece.now }
{
    matches!(piece, Piece::Name(_))
}

/// The code, unless a test holds.
fn code_unless(test: bool, code: FaultCode) -> Option<FaultCode>
    ensures { result ≡ code_unless test code }
{
    if test { None } else { Some(code) }
}

/// The code of a piece in front of the first paragraph.
fn early(begun: bool, piece: &Piece) -> Option<FaultCode>
    ensures { result ≡ early begun piece.now }
{
    code_unless(begun || is_name(piece), FaultCode::NoSuchForm)
}

/// The code of a piece's fault, if it has one. The name of a paragraph is put into the set.
#[inline(always)]
fn code_of(
    alloc: Global,
    names: &mut Names,
    block: &OpenParagraph,
    piece: &Piece,
) -> Result<Option<FaultCode>, Memory>
    ensures code { IfOk result (λ code.
        code ≡ piece_fault_code (has_name names.old) (branches block.now.open.items) piece.now) }
    ensures names { OnOk result (has_name names.new ≡ taken_after (has_name names.old) piece.now) }
{
    match piece {
        Piece::Name(name) => {
            let taken = put_name(alloc, name.as_slice(), names)?;
            Ok(code_unless(!taken, FaultCode::ParagraphTwice))
        }
        Piece::Opens(_) => Ok(code_unless(!block.is_full(), FaultCode::NoSuchForm)),
        Piece::Else => Ok(code_unless(block.can_turn(), FaultCode::NoIf)),
        Piece::EndIf => Ok(code_unless(!block.is_closed(), FaultCode::NoIf)),
        Piece::Fault(code) => Ok(Some(*code)),
        Piece::Period | Piece::Whole(_) => Ok(None),
    }
}

/// The first of the fault that is known and of that of a line, if there is a code.
fn noted_code(known: Option<Fault>, line: u32, code: Option<FaultCode>) -> Option<Fault>
    ensures { result ≡ least known (fault_at line code) }
{
    match code {
        Some(code) => better(known, Fault { line, code }),
        None => known,
    }
}

impl ProcedureReading {
    /// No piece was read. It takes no memory.
    fn new(alloc: Global) -> ProcedureReading
        ensures { (pieces : List PlacedPiece) → outcome result pieces ≡ outcome_of pieces }
    {
        ProcedureReading {
            known: None,
            names: Names::new(alloc),
            build: ParagraphBuilder::new(alloc),
        }
    }

    /// Reads the next piece. A call that knows of which kind it is does what that kind asks for alone.
    #[inline(always)]
    fn put(&mut self, alloc: Global, next: Placed) -> Result<(), Memory>
        ensures { OnOk result ((pieces : List PlacedPiece)
            → outcome self.new pieces ≡ outcome self.old (next ∷ pieces)) }
    {
        let line = next.line;
        let early = early(self.build.begun.is_some(), &next.piece);
        let code = code_of(alloc, &mut self.names, &self.build.block, &next.piece);
        self.build.put(alloc, next)?;
        self.known = noted_code(noted_code(self.known, line, early), line, code?);
        Ok(())
    }

    /// Reads the piece that a verb and the tokens behind it are.
    fn put_verb(
        &mut self,
        alloc: Global,
        server: bool,
        text: &[u8],
        line: u32,
        verb: StatementVerb,
        tokens: &[Token],
    ) -> Result<(), Memory>
        ensures { OnOk result ((pieces : List PlacedPiece) → outcome self.new pieces
            ≡ outcome self.old (record { line = line; piece = verb_piece server text.now line verb tokens.now } ∷ pieces)) }
    {
        if server && is_barred(verb) {
            let piece = Piece::Fault(FaultCode::NotForServers);
            self.put(alloc, Placed { line, piece })?;
            return Ok(());
        }
        let mut rest = FormCursor::new(server, text, tokens);
        match form(alloc, verb, line, &mut rest) {
            Ok(Form::Whole(statement)) => {
                let piece = Piece::Whole(statement);
                self.put(alloc, Placed { line, piece })?;
                Ok(())
            }
            Ok(Form::Opens(head)) => {
                let piece = Piece::Opens(head);
                self.put(alloc, Placed { line, piece })?;
                Ok(())
            }
            Err(Lack::NoForm) => {
                let piece = Piece::Fault(FaultCode::NoSuchForm);
                self.put(alloc, Placed { line, piece })?;
                Ok(())
            }
            Err(Lack::Memory) => Err(Memory),
        }
    }

    /// Reads the piece of a token, which begins what the mark says, and of those behind it. `followed`:
    /// a period follows it.
    fn put_by(
        &mut self,
        alloc: Global,
        server: bool,
        text: &[u8],
        mark: TokenMark,
        followed: bool,
        first: Token,
        tokens: &[Token],
    ) -> Result<(), Memory>
        ensures { OnOk result ((pieces : List PlacedPiece) → outcome self.new pieces
            ≡ outcome self.old (record { line = first.line; piece = piece_by mark server text.now followed first tokens.now } ∷ pieces)) }
    {
        let line = first.line;
        match mark {
            TokenMark::Verb(verb) => self.put_verb(alloc, server, text, line, verb, tokens),
            TokenMark::Period => {
                let piece = Piece::Period;
                self.put(alloc, Placed { line, piece })
            }
            TokenMark::Else if tokens.is_empty() => {
                let piece = Piece::Else;
                self.put(alloc, Placed { line, piece })
            }
            TokenMark::EndIf if tokens.is_empty() => {
                let piece = Piece::EndIf;
                self.put(alloc, Placed { line, piece })
            }
            TokenMark::Else | TokenMark::EndIf => {
                let piece = Piece::Fault(FaultCode::NoSuchForm);
                self.put(alloc, Placed { line, piece })
            }
            TokenMark::Other => {
                let piece = run_piece(alloc, server, text, followed, first, tokens)?;
                self.put(alloc, Placed { line, piece })
            }
        }
    }

    /// The procedure, or the first fault, where no piece is left.
    fn finish(self, alloc: Global) -> Result<Procedure, Refusal>
        ensures { Gives (λ procedure. procedure) result (outcome self []) }
    {
        match self.known {
            Some(fault) => Err(fault.into()),
            None => Ok(Procedure {
                paragraphs: self.build.finish(alloc)?,
            }),
        }
    }
}

/// The procedure of a program, whose tokens are those of its PROCEDURE DIVISION behind the heading.
///
/// It refuses exactly with the first fault, by line and on one line by code, where the fault of a
/// piece stands at the line of its first token: 122 for a table word as the name of a paragraph; 131
/// for a piece that no form has, for a run of tokens that is no name of a paragraph, for what stands
/// in front of the first paragraph, and for a piece that would open the 65th open branch; 132 for an
/// ELSE or END-IF that finds no branch; 133 for the name of a paragraph that an earlier one has; and,
/// in a server, 152 in place of 131 for a piece that begins with ACCEPT, CALL, DISPLAY, SEND or a verb
/// of transactions. The rules stand in `docs/reference/LANGUAGE.md`.
pub fn procedure(
    alloc: Global,
    text: &[u8],
    tokens: &[Token],
    server: bool,
) -> Result<Procedure, Refusal>
    ensures { Gives (λ procedure. procedure) result (procedure_of server text.now tokens.now) }
{
    let mut reading = ProcedureReading::new(alloc);
    let mut rest = tokens;
    let mut mark = first_mark(server, text, rest);
    while let Some((first, behind)) = rest.split_first() {
        let (size, next_mark) = piece_end(server, text, mark, behind);
        let (run, next) = behind.split_at(size);
        reading.put_by(alloc, server, text, mark, is_period(next_mark), *first, run)?;
        rest = next;
        mark = next_mark;
    }
    reading.finish(alloc)
}
