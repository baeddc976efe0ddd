ghost use Rattle.std.specs.Prelude.{◌≡◌};
ghost use Rattle.pw_names.specs.Flaws.{unless_holds};
ghost use Rattle.pw_names.specs.Order.{turn_of, comes_before, earlier, noted};

use pw_base::fault::Fault;
use pw_base::fault_code::FaultCode;

/// The turn in which a code is looked for.
fn turn_of(code: FaultCode) -> u8
    ensures { result ≡ turn_of code }
{
    match code {
        FaultCode::UnknownParagraph => 0,
        FaultCode::UnknownName => 1,
        FaultCode::UnknownItem => 2,
        FaultCode::WrongLength => 3,
        FaultCode::WrongKind => 4,
        _ => 5,
    }
}

/// Whether a fault comes before another: its code has an earlier turn, or the same and its line is
/// smaller.
fn comes_before(a: Fault, b: Fault) -> bool
    ensures { result ≡ comes_before a b }
{
    let turn = turn_of(a.code);
    let other = turn_of(b.code);
    turn < other || turn == other && a.line < b.line
}

/// The first of a fault and of the one that is known, if any.
fn earlier(known: Option<Fault>, fault: Fault) -> Option<Fault>
    ensures { result ≡ earlier known fault }
{
    match known {
        Some(first) if !comes_before(fault, first) => Some(first),
        _ => Some(fault),
    }
}

/// The first of the fault that is known and of one of this code, unless the test holds.
pub fn noted_unless(known: Option<Fault>, test: bool, line: u32, code: FaultCode) -> Option<Fault>
    ensures { result ≡ noted known line (unless_holds test code) }
{
    if test {
        known
    } else {
        earlier(known, Fault { line, code })
    }
}
