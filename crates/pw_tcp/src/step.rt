ghost use Rattle.std.specs.Prelude.{◌≡◌, ◌≢◌, ◌≤◌, true, false};
ghost use Rattle.pw_tcp.specs.NextStep.{next_step_of, is_restarting, restart_of, is_waiting, lacks_check, is_to_begin, is_calm, needs_start, needs_end, step_of_verb, check_of, MayAsk, RunsWhere, BeginsAnew};

use crate::terminal::{Note, Pending, Terminal};
use pw_code::verb::Verb;

/// The next step of a terminal. Each but `Wait` is an entry of the log; docs/design/ARCHITECTURE.md tells when each comes.
#[derive(Clone, Copy, Debug, PartialEq, Eq)]
pub enum TcpStep {
    /// The screen is shown.
    Show,
    /// The next entry line is taken.
    Key,
    /// The path before the unit goes to the backup.
    CheckStart,
    /// The path behind the unit goes to the backup.
    CheckEnd,
    /// An attempt of the unit begins.
    Begin,
    /// The kept reply of a unit that has ended is taken again.
    Again,
    /// The request goes to its class.
    Send,
    /// The unit ends with its changes.
    Commit,
    /// The unit ends without its changes.
    Back,
    /// The attempt is put back, and the unit restarts.
    Restart,
    /// As `Restart`, but the unit has restarted as often as it may, so the terminal ends.
    Suspend,
    /// The program stopped.
    Stopped,
    /// The program asked for an entry line, and none is left.
    NoEntries,
    /// The program has this run fault.
    Fault(u16),
    /// The terminal has no step now.
    Wait,
}

/// The next step of a terminal whose program stands at a verb. `in_unit` tells whether its path is in a
/// transaction, and `max` is how often a unit of it may restart. It takes no memory.
pub fn next_step(terminal: &Terminal, verb: &Verb, in_unit: bool, note: &Note, max: u32) -> TcpStep
    requires asks { MayAsk verb.now }
    requires few { terminal.now.restarts ≤ max }
    requires runs { RunsWhere terminal.now verb.now in_unit }
    requires begins { BeginsAnew terminal.now verb.now note.now }
    ensures { result ≡ next_step_of terminal.now verb.now in_unit note.now max }
{
    if is_restarting(terminal.pending, verb, note.paired) {
        return restart(terminal.restarts, max);
    }
    if is_waiting(terminal, verb, in_unit, note) {
        return TcpStep::Wait;
    }
    step_of_verb(terminal, verb, in_unit, note)
}

/// Whether the next step depends on whether the backup holds the start, so that it has to be looked up. What the note
/// says of that plays no part.
pub fn needs_start(terminal: &Terminal, verb: &Verb, in_unit: bool, note: &Note) -> bool
    ensures { result ≡ needs_start terminal.now verb.now in_unit note.now }
{
    is_calm(terminal, note) && is_to_begin(terminal, verb, in_unit, note)
}

/// Whether the next step depends on whether the backup holds the end.
pub fn needs_end(terminal: &Terminal, verb: &Verb, note: &Note) -> bool
    ensures { result ≡ needs_end terminal.now verb.now note.now }
{
    is_calm(terminal, note) && matches!(verb, Verb::End | Verb::Drop)
}

/// Whether the pair is Paired and no cause is pending.
fn is_calm(terminal: &Terminal, note: &Note) -> bool
    ensures { result ≡ is_calm terminal.now note.now }
{
    note.paired && matches!(terminal.pending, Pending::Nothing)
}

/// Whether a restart is due.
fn is_restarting(pending: Pending, verb: &Verb, paired: bool) -> bool
    ensures { result ≡ is_restarting pending verb.now paired }
{
    match pending {
        Pending::Takeover => true,
        Pending::Server => paired,
        Pending::Nothing => paired && matches!(verb, Verb::Redo),
    }
}

/// A restart, or the suspension in its place.
fn restart(restarts: u32, max: u32) -> TcpStep
    ensures { result ≡ restart_of restarts max }
{
    if restarts == max {
        TcpStep::Suspend
    } else {
        TcpStep::Restart
    }
}

/// Whether a unit is to begin at the verb.
fn is_to_begin(terminal: &Terminal, verb: &Verb, in_unit: bool, note: &Note) -> bool
    ensures { result ≡ is_to_begin terminal.now verb.now in_unit note.now }
{
    let begins = match verb {
        Verb::Begin => true,
        Verb::Send { .. } => !in_unit,
        _ => false,
    };
    begins && !terminal.running && note.ended != terminal.unit
}

/// Whether the verb needs a check that the backup does not hold.
fn lacks_check(terminal: &Terminal, verb: &Verb, in_unit: bool, note: &Note) -> bool
    ensures { result ≡ lacks_check terminal.now verb.now in_unit note.now }
{
    match verb {
        Verb::End | Verb::Drop => !note.end_held,
        _ => is_to_begin(terminal, verb, in_unit, note) && !note.start_held,
    }
}

/// Whether the terminal has no step, where no restart is due.
fn is_waiting(terminal: &Terminal, verb: &Verb, in_unit: bool, note: &Note) -> bool
    ensures { result ≡ is_waiting terminal.now verb.now in_unit note.now }
{
    !note.paired
        || terminal.request_out
        || terminal.awaited_open
        || (note.in_flight && lacks_check(terminal, verb, in_unit, note))
}

/// The step of the verb, where no restart is due and the terminal does not wait.
fn step_of_verb(terminal: &Terminal, verb: &Verb, in_unit: bool, note: &Note) -> TcpStep
    ensures { result ≡ step_of_verb terminal.now verb.now in_unit note.now }
{
    if lacks_check(terminal, verb, in_unit, note) {
        return check(verb);
    }
    match verb {
        Verb::Show => TcpStep::Show,
        Verb::Accept(_) if terminal.entries_left => TcpStep::Key,
        Verb::Accept(_) => TcpStep::NoEntries,
        Verb::Begin => TcpStep::Begin,
        Verb::Send { .. } if is_to_begin(terminal, verb, in_unit, note) => TcpStep::Begin,
        Verb::Send { .. } if terminal.running => TcpStep::Send,
        Verb::Send { .. } => TcpStep::Again,
        Verb::End => TcpStep::Commit,
        Verb::Drop => TcpStep::Back,
        Verb::Stop => TcpStep::Stopped,
        Verb::Fault(code) => TcpStep::Fault(*code),
        Verb::Redo | Verb::File(_) | Verb::Reply(_) => TcpStep::Wait,
    }
}

/// The check that a verb needs.
fn check(verb: &Verb) -> TcpStep
    ensures { result ≡ check_of verb.now }
{
    match verb {
        Verb::End | Verb::Drop => TcpStep::CheckEnd,
        _ => TcpStep::CheckStart,
    }
}
