ghost use Rattle.std.specs.Prelude.{◌≡◌, ◌++◌, ◌||◌, [], None, true, is_some, List, IfOk, OnOk};
ghost use Rattle.pw_forms.specs.Faults.{is_paragraph_name, fits, branches_after};
ghost use Rattle.pw_forms.specs.Tree.{Levels, Closed, nothing_behind, level_of};
ghost use Rattle.pw_forms.specs.Blocks.{branches};
ghost use Rattle.pw_forms.specs.Built.{completed, built};
ghost use Rattle.pw_forms.specs.declared.statement.Paragraph.{Paragraph as ParagraphOf};

use crate::branch::OpenParagraph;
use crate::build::{Begun, ParagraphBuilder};
use crate::piece::{Piece, Placed};
use crate::statement::{Paragraph, Statement};
use pw_base::bytes::Bytes;
use pw_base::list::List;
use pw_base::memory::Memory;
use std::alloc::Global;
use std::mem;

/// Completes the paragraph that has begun, if any, with its statements.
fn complete(
    paragraphs: &mut List<Paragraph>,
    begun: Option<Begun>,
    body: List<Statement>,
) -> Result<(), Memory>
    ensures { OnOk result ((behind : List ParagraphOf) → paragraphs.new ++ behind
        ≡ paragraphs.old ++ completed begun (record { statements = body; paragraphs = behind })) }
{
    match begun {
        Some(Begun { name, line }) => paragraphs.push(Paragraph { name, line, body }),
        None => Ok(()),
    }
}

/// Takes statements out, into a list that has room for these alone. Theirs keeps its room for others.
fn taken(alloc: Global, statements: &mut List<Statement>) -> Result<List<Statement>, Memory>
    ensures taken { IfOk result (λ body. body ≡ statements.old) }
    ensures left { OnOk result (statements.new ≡ []) }
{
    let mut from = mem::replace(statements, List::new(alloc)).into_vec();
    let mut body = Vec::with_capacity(alloc, from.len())?;
    body.append(&mut from)?;
    *statements = List::from_vec(from);
    Ok(List::from_vec(body))
}

impl ParagraphBuilder {
    /// No paragraph, and none that has begun. It takes no memory.
    pub fn new(alloc: Global) -> ParagraphBuilder
        ensures paragraphs { result.paragraphs ≡ [] }
        ensures begun { result.begun ≡ None }
        ensures open { result.block.open.items ≡ [] }
        ensures current { result.block.current ≡ [] }
    {
        ParagraphBuilder {
            paragraphs: List::new(alloc),
            begun: None,
            block: OpenParagraph::new(alloc),
        }
    }

    /// Completes the paragraph that has begun, and begins another one, if it is given.
    fn turn_to(&mut self, alloc: Global, begun: Option<Begun>) -> Result<(), Memory>
        ensures begun { OnOk result (self.new.begun ≡ begun) }
        ensures open { OnOk result (self.new.block.open.items ≡ []) }
        ensures current { OnOk result (self.new.block.current ≡ []) }
        ensures paragraphs { OnOk result ((behind : List ParagraphOf)
            → self.new.paragraphs ++ behind ≡ built self.old (Closed [] (record { statements = []; paragraphs = behind }))) }
    {
        self.block.close_all(alloc)?;
        let body = taken(alloc, &mut self.block.current)?;
        let completed = mem::replace(&mut self.begun, begun);
        complete(&mut self.paragraphs, completed, body)
    }

    /// Puts the next piece behind those so far.
    #[inline(always)]
    pub fn put(&mut self, alloc: Global, next: Placed) -> Result<(), Memory>
        ensures begun { OnOk result (is_some self.new.begun
            ≡ (is_some self.old.begun || is_paragraph_name next.piece)) }
        ensures branches { OnOk result (branches self.new.block.open.items
            ≡ branches_after (branches self.old.block.open.items) next.piece) }
        ensures built { OnOk result (fits (branches self.old.block.open.items) next.piece ≡ true
            → (x : Levels) → built self.new x ≡ built self.old (level_of next.line next.piece x)) }
    {
        let Placed { line, piece } = next;
        match piece {
            Piece::Name(name) => self.turn_to(alloc, Some(Begun { name, line })),
            Piece::Period => self.block.close_all(alloc),
            Piece::Whole(statement) => self.block.push(statement),
            Piece::Opens(head) => self.block.open_branch(alloc, head),
            Piece::Else => self.block.turn(alloc),
            Piece::EndIf => self.block.end(alloc),
            Piece::Fault(_) => Ok(()),
        }
    }

    /// The paragraphs, where no piece is left.
    pub fn finish(mut self, alloc: Global) -> Result<List<Paragraph>, Memory>
        ensures { IfOk result (λ paragraphs. paragraphs ≡ built self (Closed [] nothing_behind)) }
    {
        self.turn_to(alloc, None)?;
        Ok(self.paragraphs)
    }
}
