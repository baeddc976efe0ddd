//! How many lines of a text count, whatever they are lines of.

ghost use Rattle.std.specs.Prelude.{◌+◌, ◌*◌, ◌≤◌, length, IfOk};
ghost use Rattle.pw_base.specs.First.{Gives};
ghost use Rattle.pw_base.specs.Limits.{longest_input};
ghost use Rattle.pw_sections.specs.Lines.{lines};
ghost use Rattle.pw_sections.specs.Steps.{each_line, line_taken};

use pw_base::fault::Refusal;
use pw_event::system_names::SystemNames;
use pw_sections::line::next_line;
use std::alloc::Global;

/// What lines are that count: with which names they are read, which of them count, and how many there may be.
pub trait CountedLines {
    ghost use Rattle.std.specs.Prelude.{ℕ, List, Result};
    ghost use Rattle.pw_base.specs.declared.fault.Fault.{Fault};
    ghost use Rattle.pw_code.specs.declared.system.System.{System};

    ghost are_read_by: { System → Type 0 };

    ghost counted: { System → ℕ → ℕ → List ℕ → Result ℕ Fault };

    ghost most: { ℕ };

    /// Counts a line: how many there are with it.
    fn count_line(
        alloc: Global,
        names: &SystemNames,
        number: u32,
        count: u32,
        line: &[u8],
    ) -> Result<u32, Refusal>
        requires names { are_read_by names.now }
        requires count { count ≤ most }
        ensures gives { Gives (λ count. count) result (line_taken (counted names.now) number count line.now) }
        ensures bound { IfOk result (λ count. count ≤ most) };
}

/// How many lines of a text count, the first of which has the number `first_line`.
pub fn count_lines<C: CountedLines>(
    alloc: Global,
    names: &SystemNames,
    text: &[u8],
    first_line: u32,
) -> Result<u32, Refusal>
    requires names { C.are_read_by names.now }
    requires lines { first_line + length text.now ≤ 2 * longest_input + 1 }
    ensures { Gives (λ count. count) result (each_line (C.counted names.now) first_line 0 (lines text.now)) }
{
    let mut count = 0;
    let mut number = first_line;
    let mut rest = text;
    while let Some((line, behind)) = next_line(rest) {
        count = C::count_line(alloc, names, number, count, line)?;
        number += 1;
        rest = behind;
    }
    Ok(count)
}
