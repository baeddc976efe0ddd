ghost use Rattle.std.specs.Prelude.{◌≡◌, ◌+◌, ◌*◌, ◌≤◌, length, IfOk};
ghost use Rattle.pw_base.specs.First.{Gives};
ghost use Rattle.pw_base.specs.Limits.{longest_input};
ghost use Rattle.pw_code.specs.Valid.{HasNames};
ghost use Rattle.pw_code.specs.declared.lock.LockRule.TheVariants.{ReadersShare};
ghost use Rattle.pw_event.specs.Parsing.{failure_in};
ghost use Rattle.pw_sections.specs.Steps.{line_taken};
ghost use Rattle.pw_log_lines.specs.Grammar.{nobody, is_bad};
ghost use Rattle.pw_log_lines.specs.Fail.{failure_counted, failures_counted, failure_read, failures_of};

use crate::count::{CountedLines, count_lines};
use crate::nobody::nobody;
use pw_base::fault::Refusal;
use pw_base::fault_code::FaultCode;
use pw_base::list::List;
use pw_base::memory::Memory;
use pw_code::lock::LockRule;
use pw_code::system::System;
use pw_event::fault::EventFault;
use pw_event::script::{FailLine, MAX_FAIL_LINES};
use pw_event::system_names::SystemNames;
use pw_sections::line::next_line;
use pw_sections::word::is_blank;
use std::alloc::Global;

/// Whether a failure line is outside the grammar. The names are those of a system without a name.
fn is_bad(alloc: Global, names: &SystemNames, line: &[u8]) -> Result<bool, Memory>
    ensures { IfOk result (λ bad. bad ≡ is_bad (failure_in names.now line.now)) }
{
    match names.read_fail(alloc, line) {
        Ok(_) => Ok(false),
        Err(EventFault::Bad) => Ok(true),
        Err(EventFault::Unknown) => Ok(false),
        Err(EventFault::Memory) => Err(Memory),
    }
}

/// Failure lines, read with the names of a system without a name.
struct FailureLines;

impl CountedLines for FailureLines {
    ghost use Rattle.std.specs.Prelude.{◌≡◌};
    ghost use Rattle.pw_code.specs.Limits.{most_fail_lines};
    ghost use Rattle.pw_code.specs.declared.lock.LockRule.TheVariants.{ReadersShare};
    ghost use Rattle.pw_log_lines.specs.Fail.{failure_counted};
    ghost use Rattle.pw_log_lines.specs.Grammar.{nobody};

    ghost are_read_by = { λ names. names ≡ nobody ReadersShare };

    ghost counted = { λ names. failure_counted };

    ghost most = { most_fail_lines };

    fn count_line(
        alloc: Global,
        names: &SystemNames,
        number: u32,
        count: u32,
        line: &[u8],
    ) -> Result<u32, Refusal> {
        if is_blank(line) {
            return Ok(count);
        }
        if is_bad(alloc, names, line)? {
            return Err(Refusal::At {
                line: number,
                code: FaultCode::BadFailureLine,
            });
        }
        if count as usize >= MAX_FAIL_LINES {
            return Err(Refusal::At {
                line: number,
                code: FaultCode::TooMany,
            });
        }
        Ok(count + 1)
    }
}

/// How many failure lines a text has, whose first line has the number `first_line`, with the names of a
/// system without a name.
fn count_of_nobody(
    alloc: Global,
    system: &System,
    text: &[u8],
    first_line: u32,
) -> Result<u32, Refusal>
    requires system { system.now ≡ nobody ReadersShare }
    requires names { HasNames system.now }
    requires lines { first_line + length text.now ≤ 2 * longest_input + 1 }
    ensures { Gives (λ count. count) result (failures_counted text.now first_line) }
{
    let names = SystemNames::new(alloc, system)?;
    count_lines::<FailureLines>(alloc, &names, text, first_line)
}

/// How many failure lines a text has, whose first line has the number `first_line` (docs/reference/DECK.md).
///
/// It refuses exactly with the first fault, by line and on one line by code: 172 for a line outside
/// the grammar, and 196 for the line above `MAX_FAIL_LINES`. What the lines name is not looked at.
pub fn count_failures(alloc: Global, text: &[u8], first_line: u32) -> Result<u32, Refusal>
    requires { first_line + length text.now ≤ 2 * longest_input + 1 }
    ensures { Gives (λ count. count) result (failures_counted text.now first_line) }
{
    let system = nobody(alloc, LockRule::ReadersShare);
    count_of_nobody(alloc, &system, text, first_line)
}

/// Reads a failure line behind the others. An `Err` says nothing of what was read.
fn read_failure(
    alloc: Global,
    names: &SystemNames,
    number: u32,
    fails: &mut List<FailLine>,
    line: &[u8],
) -> Result<(), Refusal>
    ensures { Gives (λ done. fails.new) result (failure_read names.now number fails.old line.now) }
{
    match names.read_fail(alloc, line) {
        Ok(fail) => {
            fails.push(fail)?;
            Ok(())
        }
        Err(EventFault::Memory) => Err(Refusal::Memory),
        Err(EventFault::Bad | EventFault::Unknown) => Err(Refusal::At {
            line: number,
            code: FaultCode::UnknownObject,
        }),
    }
}

/// Reads a line: one without a word says nothing. An `Err` says nothing of what was read.
fn read_line(
    alloc: Global,
    names: &SystemNames,
    number: u32,
    fails: &mut List<FailLine>,
    line: &[u8],
) -> Result<(), Refusal>
    ensures { Gives (λ done. fails.new) result (line_taken (failure_read names.now) number fails.old line.now) }
{
    if is_blank(line) {
        Ok(())
    } else {
        read_failure(alloc, names, number, fails, line)
    }
}

/// The failure lines of a text whose first line has the number `first_line`, in a system.
///
/// It refuses exactly the first line, with 183, that says no failure of the system.
pub fn failures(
    alloc: Global,
    names: &SystemNames,
    text: &[u8],
    first_line: u32,
) -> Result<List<FailLine>, Refusal>
    requires { first_line + length text.now ≤ 2 * longest_input + 1 }
    ensures { Gives (λ fails. fails) result (failures_of names.now text.now first_line) }
{
    let mut fails = List::new(alloc);
    let mut number = first_line;
    let mut rest = text;
    while let Some((line, behind)) = next_line(rest) {
        read_line(alloc, names, number, &mut fails, line)?;
        number += 1;
        rest = behind;
    }
    Ok(fails)
}
