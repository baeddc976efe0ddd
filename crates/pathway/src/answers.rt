//! Texts that are no report.

ghost use Rattle.std.specs.Prelude.{◌≡◌, IfOk};
ghost use Rattle.pathway.specs.Commands.{deck_ok, fault_line, usage_line};

use pw_base::bytes::Bytes;
use pw_base::fault::Fault;
use pw_base::fault_code::FaultCode;
use pw_base::memory::Memory;
use pw_input_output::status::Status;
use pw_words::texts::refusal_text;
use std::alloc::Global;

/// The fault of an input that is too long.
pub const TOO_LONG: Fault = Fault {
    line: 0,
    code: FaultCode::InputTooLong,
};

/// The line that is written where the words say nothing.
pub fn usage_line() -> &'static [u8]
    ensures { result.now ≡ usage_line }
{
    b"USAGE: pathway run|trial|check|verify|gen|disc|trail|status|expand [--workers N] [--events N] [--seed N] [--terms N] [--at N]\n"
}

/// The line of a deck without a fault.
pub fn deck_ok(alloc: Global) -> Result<Bytes, Memory>
    ensures { IfOk result (λ text. text ≡ deck_ok) }
{
    Bytes::from_slice(alloc, b"DECK OK\n")
}

/// The line of a first fault.
pub fn refused(alloc: Global, fault: Fault) -> Result<(Status, Bytes), Memory>
    ensures { IfOk result (λ output. (output.0 ≡ Status.Refused) × (output.1 ≡ fault_line fault)) }
{
    let text = fault_line(alloc, fault)?;
    Ok((Status::Refused, text))
}

/// The line that tells a fault: its line, its code and its text.
fn fault_line(alloc: Global, fault: Fault) -> Result<Bytes, Memory>
    ensures { IfOk result (λ text. text ≡ fault_line fault) }
{
    let Fault { line, code } = fault;
    let words = format!(in alloc; "DECK FAULT LINE {line} CODE {} ", code.number())?;
    let mut text = Bytes::from_slice(alloc, words.as_bytes())?;
    text.extend(refusal_text(code))?;
    text.push(b'\n')?;
    Ok(text)
}
