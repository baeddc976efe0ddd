ghost use Rattle.std.specs.Prelude.{◌≡◌, ◌==◌, ◌++◌, ◌∷◌, [], true, not, is_some, length, OnOk, IfOk};
ghost use Rattle.std.specs.List.{list_any};
ghost use Rattle.pw_forms.specs.Faults.{is_full, can_turn, fits, branches_after};
ghost use Rattle.pw_forms.specs.Tree.{ParagraphsBehind, Levels, Closed, AtElse, AtEndIf, prepend, opened, closed};
ghost use Rattle.pw_forms.specs.Blocks.{finished_head, branches, stands};
ghost use Rattle.pw_forms.specs.declared.form.Head.TheVariants as heads;
ghost use Rattle.pw_forms.specs.declared.piece.Piece.TheVariants as pieces;

use crate::branch::{Open, OpenParagraph};
use crate::form::Head;
use crate::statement::{ArithmeticForm, Statement};
use pw_base::list::List;
use pw_base::memory::Memory;
use std::alloc::Global;
use std::mem;

/// The most branches that may be open at once.
const MAX_OPEN: usize = 64;

/// Arithmetic with ON SIZE ERROR and its two branches.
fn on_size_error(
    line: u32,
    arithmetic: ArithmeticForm,
    first: List<Statement>,
    second: List<Statement>,
) -> Statement
    ensures { result ≡ closed (heads.OnSizeError line arithmetic) first second }
{
    Statement::OnSizeError {
        line,
        arithmetic,
        first,
        second,
    }
}

/// The statement of a head and its two branches.
fn closed(head: Head, first: List<Statement>, second: List<Statement>) -> Statement
    ensures { result ≡ closed head first second }
{
    match head {
        Head::If { line, cond } => Statement::If {
            line,
            cond,
            first,
            second,
        },
        Head::OnSizeError { line, arithmetic } => on_size_error(line, arithmetic, first, second),
    }
}

/// The statement of a head that closes: its last statements are those of its second branch where it
/// has its ELSE, and else of its first.
fn finished(
    alloc: Global,
    head: Head,
    first: Option<List<Statement>>,
    last: List<Statement>,
) -> Statement
    ensures { result ≡ finished_head head first last }
{
    match first {
        None => closed(head, last, List::new(alloc)),
        Some(first) => closed(head, first, last),
    }
}

/// The statements before a branch, and the one to which it closes.
fn close(alloc: Global, top: Open, last: List<Statement>) -> Result<List<Statement>, Memory>
    ensures { IfOk result (λ block.
        block ≡ top.before ++ finished_head top.head top.first last ∷ []) }
{
    let Open {
        head,
        mut before,
        first,
    } = top;
    before.push(finished(alloc, head, first, last))?;
    Ok(before)
}

/// Whether the branch has no ELSE yet.
fn lacks_else(branch: &Open) -> bool
    ensures { result ≡ not (is_some branch.now.first) }
{
    branch.first.is_none()
}

/// Whether one of the branches has no ELSE yet.
fn any_lacks_else(branches: &[Open]) -> bool
    ensures { result ≡ list_any (λ branch. not (is_some branch.first)) branches.now }
{
    branches.iter().any(|branch| lacks_else(branch))
}

impl OpenParagraph {
    /// No statement, and no open branch. It takes no memory.
    pub fn new(alloc: Global) -> OpenParagraph
        ensures open { result.open.items ≡ [] }
        ensures current { result.current ≡ [] }
    {
        OpenParagraph {
            open: Vec::new(alloc),
            current: List::new(alloc),
        }
    }

    /// Whether no other branch may be opened.
    pub fn is_full(&self) -> bool
        ensures { result ≡ is_full (branches self.now.open.items) }
    {
        self.open.as_slice().len() >= MAX_OPEN
    }

    /// Whether a branch has no ELSE yet.
    pub fn can_turn(&self) -> bool
        ensures { result ≡ can_turn (branches self.now.open.items) }
    {
        any_lacks_else(self.open.as_slice())
    }

    /// Whether no branch is open.
    pub fn is_closed(&self) -> bool
        ensures { result ≡ (length (branches self.now.open.items) == 0) }
    {
        self.open.as_slice().is_empty()
    }

    /// Puts a statement behind the others.
    pub fn push(&mut self, statement: Statement) -> Result<(), Memory>
        ensures branches { OnOk result (branches self.new.open.items
            ≡ branches self.old.open.items) }
        ensures stands { OnOk result ((x : Levels)
            → stands self.new x ≡ stands self.old (prepend (statement ∷ []) x)) }
    {
        self.current.push(statement)?;
        Ok(())
    }

    /// Opens a branch, where there is room.
    pub fn open_branch(&mut self, alloc: Global, head: Head) -> Result<(), Memory>
        ensures branches { OnOk result (branches self.new.open.items
            ≡ branches_after (branches self.old.open.items) (pieces.Opens head)) }
        ensures stands { OnOk result (fits (branches self.old.open.items) (pieces.Opens head) ≡ true
            → (x : Levels) → stands self.new x ≡ stands self.old (opened head x)) }
    {
        if self.is_full() {
            return Ok(());
        }
        let before = mem::replace(&mut self.current, List::new(alloc));
        self.open.push(Open {
            head,
            before,
            first: None,
        })?;
        Ok(())
    }

    /// ELSE turns the innermost branch that has none yet, if there is one, and closes those inside.
    pub fn turn(&mut self, alloc: Global) -> Result<(), Memory>
        ensures branches { OnOk result (branches self.new.open.items
            ≡ branches_after (branches self.old.open.items) pieces.Else) }
        ensures stands { OnOk result (fits (branches self.old.open.items) pieces.Else ≡ true
            → (x : Levels) → stands self.new x ≡ stands self.old (AtElse [] x)) }
    {
        if !self.can_turn() {
            return Ok(());
        }
        while let Some(top) = self.open.pop() {
            let last = mem::replace(&mut self.current, List::new(alloc));
            if top.first.is_none() {
                self.open.push(Open {
                    head: top.head,
                    before: top.before,
                    first: Some(last),
                })?;
                return Ok(());
            }
            self.current = close(alloc, top, last)?;
        }
        Ok(())
    }

    /// END-IF closes the innermost branch, if one is open.
    pub fn end(&mut self, alloc: Global) -> Result<(), Memory>
        ensures branches { OnOk result (branches self.new.open.items
            ≡ branches_after (branches self.old.open.items) pieces.EndIf) }
        ensures stands { OnOk result (fits (branches self.old.open.items) pieces.EndIf ≡ true
            → (x : Levels) → stands self.new x ≡ stands self.old (AtEndIf [] x)) }
    {
        let Some(top) = self.open.pop() else {
            return Ok(());
        };
        let last = mem::replace(&mut self.current, List::new(alloc));
        self.current = close(alloc, top, last)?;
        Ok(())
    }

    /// A period closes all branches.
    pub fn close_all(&mut self, alloc: Global) -> Result<(), Memory>
        ensures open { OnOk result (self.new.open.items ≡ []) }
        ensures stands { OnOk result ((behind : ParagraphsBehind)
            → Closed self.new.current behind ≡ stands self.old (Closed [] behind)) }
    {
        while let Some(top) = self.open.pop() {
            let last = mem::replace(&mut self.current, List::new(alloc));
            self.current = close(alloc, top, last)?;
        }
        Ok(())
    }
}
