ghost use Rattle.std.specs.Prelude.{◌≡◌, IfOk};
ghost use Rattle.pw_report.specs.NoStep.{no_step_line};

use pw_base::bytes::Bytes;
use pw_base::memory::Memory;
use std::alloc::Global;

/// The line that names the first entry of a log that is no step, by its number from 1 (docs/design/ARCHITECTURE.md).
pub fn no_step_line(alloc: Global, number: u64) -> Result<Bytes, Memory>
    ensures { IfOk result (λ text. text ≡ no_step_line number) }
{
    let words = format!(in alloc; "NOT A STEP {number}")?;
    let mut text = Bytes::from_slice(alloc, words.as_bytes())?;
    text.push(b'\n')?;
    Ok(text)
}
