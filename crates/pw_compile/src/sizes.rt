ghost use Rattle.std.specs.Prelude.{◌≡◌, ◌+◌, IfOk};
ghost use Rattle.pw_compile.specs.Sizes.{size, body_size};

use crate::numbers::add;
use pw_base::memory::Memory;
use pw_forms::statement::Statement;

/// How many instructions branches of these sizes take, with the jump in front of each.
fn with_jumps(first: u32, second: u32) -> Result<u32, Memory>
    ensures { IfOk result (λ total. total ≡ 1 + first + 1 + second) }
{
    add(add(first, second)?, 2)
}

/// How many instructions a statement takes.
#[cycle(sizes)]
pub fn size(statement: &Statement) -> Result<u32, Memory>
    ensures { IfOk result (λ total. total ≡ size statement.now) }
{
    match statement {
        Statement::OnSizeError { first, second, .. } => {
            let first = body_size(first.as_slice())?;
            let second = body_size(second.as_slice())?;
            with_jumps(first, second)
        }
        Statement::If { first, second, .. } => {
            let first = body_size(first.as_slice())?;
            let second = body_size(second.as_slice())?;
            with_jumps(first, second)
        }
        Statement::PerformUntil { .. } | Statement::Send { .. } => Ok(2),
        _ => Ok(1),
    }
}

/// How many instructions the statements of a paragraph or a branch take.
#[cycle(sizes)]
pub fn body_size(body: &[Statement]) -> Result<u32, Memory>
    ensures { IfOk result (λ total. total ≡ body_size body.now) }
{
    let mut total = 0;
    for statement in body {
        total = add(total, size(statement)?)?;
    }
    Ok(total)
}
