//! The refresh number of an entry is noted before the entry is entered, and forgotten where it is refused.

ghost use Rattle.std.specs.Prelude.{◌≡◌, ◌<◌, IfOk, OnErr, length};
ghost use Rattle.pw_status.specs.Shown.{IsSameAs};
ghost use Rattle.pw_status.specs.Noting.{Forgets, HasKeptNumbers, IsUndone, Notes, shown_in};

use crate::shown::Numbers;
use pw_base::memory::Memory;
use pw_event::event::Event;
use pw_report_text::numbers::ListedRefreshNumber;

/// The terminal of a SHOW, and its refresh number.
pub(crate) fn shown_in(entry: &Event) -> Option<(u32, ListedRefreshNumber)>
    ensures { result ≡ shown_in entry.now }
{
    match *entry {
        Event::Show {
            terminal,
            phase,
            attempt,
            k,
        } => Some((terminal, ListedRefreshNumber { phase, attempt, k })),
        _ => None,
    }
}

/// Notes a refresh number, if there is one; whether it is new. An `Err` leaves all as it was.
pub(crate) fn note(
    numbers: &mut Numbers,
    shown: Option<(u32, ListedRefreshNumber)>,
) -> Result<bool, Memory>
    requires { HasKeptNumbers shown numbers.old }
    ensures ok { IfOk result (λ fresh. Notes shown fresh numbers.old numbers.new) }
    ensures err { OnErr result (IsSameAs numbers.old numbers.new) }
{
    match shown {
        Some((terminal, number)) => numbers.note(terminal, number),
        None => Ok(false),
    }
}

/// Forgets a refresh number that was new.
pub(crate) fn forget(numbers: &mut Numbers, shown: Option<(u32, ListedRefreshNumber)>, fresh: bool)
    requires { HasKeptNumbers shown numbers.old }
    ensures { Forgets shown fresh numbers.old numbers.new }
{
    match shown {
        Some((terminal, number)) => forget_if(numbers, terminal, number, fresh),
        None => (),
    }
}

/// Forgets the refresh number of a terminal where it was new.
fn forget_if(numbers: &mut Numbers, terminal: u32, number: ListedRefreshNumber, fresh: bool)
    requires { terminal < length numbers.old }
    ensures { IsUndone (terminal, number) fresh numbers.old numbers.new }
{
    if fresh {
        numbers.forget(terminal, number);
    }
}
