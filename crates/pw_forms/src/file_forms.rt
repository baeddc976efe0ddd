ghost use Rattle.std.specs.Prelude.{◌≡◌};
ghost use Rattle.pw_forms.specs.Readers.{ReadsForm};
ghost use Rattle.pw_forms.specs.FileForms as spec;

use crate::cursor::FormCursor;
use crate::form::Form;
use crate::lack::Lack;
use crate::mark::FileVerb;
use crate::operands::{file_name, operand};
use crate::statement::Statement;
use std::alloc::Global;

/// `WITH LOCK`, if it comes next.
#[tactic(auto, unfolding(crate::specs::FileForms::with_lock))]
fn with_lock(rest: &mut FormCursor<'_>) -> Result<bool, Lack>
    ensures { ReadsForm (spec.with_lock rest.old) result rest.new }
{
    if rest.eats(b"WITH") {
        rest.expects(b"LOCK")?;
        Ok(true)
    } else {
        Ok(false)
    }
}

/// `READ $RECEIVE INTO item`, behind `$RECEIVE`.
#[tactic(auto, unfolding(crate::specs::FileForms::receive))]
fn receive(alloc: Global, line: u32, rest: &mut FormCursor<'_>) -> Result<Form, Lack>
    ensures { ReadsForm (spec.receive line rest.old) result rest.new }
{
    rest.expects(b"INTO")?;
    let into = operand(alloc, rest)?;
    rest.ends()?;
    Ok(Form::Whole(Statement::Receive { line, into }))
}

/// `READ file [WITH LOCK] KEY item INTO item`
#[tactic(auto, unfolding(crate::specs::FileForms::read_file))]
fn read_file(alloc: Global, line: u32, rest: &mut FormCursor<'_>) -> Result<Form, Lack>
    ensures { ReadsForm (spec.read_file line rest.old) result rest.new }
{
    let file = file_name(alloc, rest)?;
    let locking = with_lock(rest)?;
    rest.expects(b"KEY")?;
    let key = operand(alloc, rest)?;
    rest.expects(b"INTO")?;
    let into = operand(alloc, rest)?;
    rest.ends()?;
    Ok(Form::Whole(Statement::Read {
        line,
        file,
        locking,
        key,
        into,
    }))
}

/// `READ NEXT file [WITH LOCK] AFTER item INTO item`, behind NEXT.
#[tactic(auto, unfolding(crate::specs::FileForms::read_next))]
fn read_next(alloc: Global, line: u32, rest: &mut FormCursor<'_>) -> Result<Form, Lack>
    ensures { ReadsForm (spec.read_next line rest.old) result rest.new }
{
    let file = file_name(alloc, rest)?;
    let locking = with_lock(rest)?;
    rest.expects(b"AFTER")?;
    let after = operand(alloc, rest)?;
    rest.expects(b"INTO")?;
    let into = operand(alloc, rest)?;
    rest.ends()?;
    Ok(Form::Whole(Statement::ReadNext {
        line,
        file,
        locking,
        after,
        into,
    }))
}

/// Whether NEXT, a file and AFTER or WITH come next: else NEXT is itself the name of the file.
#[tactic(auto, unfolding(crate::specs::FileForms::sees_next))]
fn sees_next(rest: &FormCursor<'_>) -> bool
    ensures { result ≡ spec.sees_next rest.now }
{
    rest.sees(b"NEXT") && (rest.sees_third(b"AFTER") || rest.sees_third(b"WITH"))
}

/// The forms of READ.
#[tactic(auto, unfolding(crate::specs::FileForms::read))]
fn read(alloc: Global, line: u32, rest: &mut FormCursor<'_>) -> Result<Form, Lack>
    ensures { ReadsForm (spec.read line rest.old) result rest.new }
{
    if sees_next(rest) {
        rest.expects(b"NEXT")?;
        read_next(alloc, line, rest)
    } else if rest.eats(b"$RECEIVE") {
        receive(alloc, line, rest)
    } else {
        read_file(alloc, line, rest)
    }
}

/// `WRITE $RECEIVE FROM item`, behind `$RECEIVE`.
#[tactic(auto, unfolding(crate::specs::FileForms::reply))]
fn reply(alloc: Global, line: u32, rest: &mut FormCursor<'_>) -> Result<Form, Lack>
    ensures { ReadsForm (spec.reply line rest.old) result rest.new }
{
    rest.expects(b"FROM")?;
    let from = operand(alloc, rest)?;
    rest.ends()?;
    Ok(Form::Whole(Statement::Reply { line, from }))
}

/// `WRITE file FROM item`
#[tactic(auto, unfolding(crate::specs::FileForms::write_file))]
fn write_file(alloc: Global, line: u32, rest: &mut FormCursor<'_>) -> Result<Form, Lack>
    ensures { ReadsForm (spec.write_file line rest.old) result rest.new }
{
    let file = file_name(alloc, rest)?;
    rest.expects(b"FROM")?;
    let from = operand(alloc, rest)?;
    rest.ends()?;
    Ok(Form::Whole(Statement::Write { line, file, from }))
}

/// The forms of WRITE.
#[tactic(auto, unfolding(crate::specs::FileForms::write))]
fn write(alloc: Global, line: u32, rest: &mut FormCursor<'_>) -> Result<Form, Lack>
    ensures { ReadsForm (spec.write line rest.old) result rest.new }
{
    if rest.eats(b"$RECEIVE") {
        reply(alloc, line, rest)
    } else {
        write_file(alloc, line, rest)
    }
}

/// `REWRITE file FROM item`
#[tactic(auto, unfolding(crate::specs::FileForms::rewrite))]
fn rewrite(alloc: Global, line: u32, rest: &mut FormCursor<'_>) -> Result<Form, Lack>
    ensures { ReadsForm (spec.rewrite line rest.old) result rest.new }
{
    let file = file_name(alloc, rest)?;
    rest.expects(b"FROM")?;
    let from = operand(alloc, rest)?;
    rest.ends()?;
    Ok(Form::Whole(Statement::Rewrite { line, file, from }))
}

/// `DELETE file KEY item`
#[tactic(auto, unfolding(crate::specs::FileForms::delete))]
fn delete(alloc: Global, line: u32, rest: &mut FormCursor<'_>) -> Result<Form, Lack>
    ensures { ReadsForm (spec.delete line rest.old) result rest.new }
{
    let file = file_name(alloc, rest)?;
    rest.expects(b"KEY")?;
    let key = operand(alloc, rest)?;
    rest.ends()?;
    Ok(Form::Whole(Statement::Delete { line, file, key }))
}

/// The form of a verb of files, which servers alone have.
#[tactic(auto, unfolding(crate::specs::FileForms::file_form))]
pub fn file_form(
    alloc: Global,
    verb: FileVerb,
    line: u32,
    rest: &mut FormCursor<'_>,
) -> Result<Form, Lack>
    ensures { ReadsForm (spec.file_form verb line rest.old) result rest.new }
{
    if !rest.is_server() {
        return Err(Lack::NoForm);
    }
    match verb {
        FileVerb::Delete => delete(alloc, line, rest),
        FileVerb::Read => read(alloc, line, rest),
        FileVerb::Rewrite => rewrite(alloc, line, rest),
        FileVerb::Write => write(alloc, line, rest),
    }
}
