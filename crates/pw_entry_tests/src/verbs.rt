//! Tests of verbs, modes and causes.

ghost use Rattle.std.specs.Prelude.{◌≡◌, is_some};
ghost use Rattle.pw_world_state.specs.PairTests.{is_sending};
ghost use Rattle.pw_world_state.specs.TerminalTests.{begins_unit, closing};
ghost use Rattle.pw_laws.specs.legal.Values.{is_server_by, is_takeover_by, some_with};
ghost use Rattle.pw_laws.specs.legal.Verbs.{asks_accept, asks_drop, asks_end, asks_fault, asks_redo, asks_send, asks_send_to, asks_show, asks_stop, replies};
ghost use Rattle.pw_onecopy.specs.Operation.{plain_op};
ghost use Rattle.pw_paired.specs.Raising.{is_takeover};
ghost use Rattle.pw_tcp.specs.Entries.{class_of_send};
ghost use Rattle.pw_tcp.specs.InState.{pending_of};
ghost use Rattle.pw_world_state.specs.NextSteps.{has_member};

use pw_code::file::FileOp;
use pw_code::verb::Verb;
use pw_event::event::Cause;
use pw_pair::mode::Mode;
use pw_tcp::terminal::Pending;

/// Whether the verb begins a unit, by whether it stands outside a transaction.
pub fn begins_unit(verb: &Verb, outside: bool) -> bool
    ensures { result ≡ begins_unit verb.now outside }
{
    match verb {
        Verb::Begin => true,
        Verb::Send { .. } => outside,
        _ => false,
    }
}

/// Whether the verb ends a transaction.
pub fn closes(verb: &Verb) -> bool
    ensures { result ≡ is_some (closing verb.now) }
{
    matches!(verb, Verb::End | Verb::Drop)
}

/// Whether the verb is a Show.
pub fn asks_show(verb: &Verb) -> bool
    ensures { result ≡ asks_show verb.now }
{
    matches!(verb, Verb::Show)
}

/// Whether the verb is an Accept.
pub fn asks_accept(verb: &Verb) -> bool
    ensures { result ≡ asks_accept verb.now }
{
    matches!(verb, Verb::Accept(_))
}

/// Whether the verb is a Send.
pub fn asks_send(verb: &Verb) -> bool
    ensures { result ≡ asks_send verb.now }
{
    matches!(verb, Verb::Send { .. })
}

/// Whether the verb is a Send to the class.
pub fn asks_send_to(verb: &Verb, to: u32) -> bool
    ensures { result ≡ asks_send_to to verb.now }
{
    match verb {
        Verb::Send { class, .. } => *class == to,
        _ => false,
    }
}

/// The class that the verb sends to.
pub fn class_of(verb: &Verb) -> u32
    ensures { result ≡ class_of_send verb.now }
{
    match verb {
        Verb::Send { class, .. } => *class,
        _ => 0,
    }
}

/// Whether the verb is an End.
pub fn asks_end(verb: &Verb) -> bool
    ensures { result ≡ asks_end verb.now }
{
    matches!(verb, Verb::End)
}

/// Whether the verb is a Drop.
pub fn asks_drop(verb: &Verb) -> bool
    ensures { result ≡ asks_drop verb.now }
{
    matches!(verb, Verb::Drop)
}

/// Whether the verb is a Redo.
pub fn asks_redo(verb: &Verb) -> bool
    ensures { result ≡ asks_redo verb.now }
{
    matches!(verb, Verb::Redo)
}

/// Whether the verb is a Stop.
pub fn asks_stop(verb: &Verb) -> bool
    ensures { result ≡ asks_stop verb.now }
{
    matches!(verb, Verb::Stop)
}

/// Whether the verb is this run fault.
pub fn asks_fault(verb: &Verb, fault: u16) -> bool
    ensures { result ≡ asks_fault fault verb.now }
{
    match verb {
        Verb::Fault(code) => *code == fault,
        _ => false,
    }
}

/// Whether a server at this verb replies, or has this run fault.
pub fn replies(verb: &Verb, fault: Option<u16>) -> bool
    ensures { result ≡ replies verb.now fault }
{
    match (verb, fault) {
        (Verb::Reply(_), None) => true,
        (Verb::Fault(code), Some(fault)) => *code == fault,
        _ => false,
    }
}

/// The operation as an entry of the log names it.
pub fn plain(op: FileOp) -> FileOp
    ensures { result ≡ plain_op op }
{
    match op {
        FileOp::ReadLock => FileOp::Read,
        FileOp::NextLock => FileOp::Next,
        _ => op,
    }
}

/// Whether messages fly to a backup in this mode.
pub fn is_sending(mode: Mode) -> bool
    ensures { result ≡ is_sending mode }
{
    matches!(mode, Mode::Raising | Mode::Paired)
}

/// Whether a member of the pair works in this mode.
pub fn has_member(mode: Mode) -> bool
    ensures { result ≡ has_member mode }
{
    !matches!(mode, Mode::Down | Mode::Gone)
}

/// A pending cause, as the next step is told it.
pub fn pending_of(cause: Option<Cause>) -> Pending
    ensures { result ≡ pending_of cause }
{
    match cause {
        None => Pending::Nothing,
        Some(Cause::Takeover(_)) => Pending::Takeover,
        Some(_) => Pending::Server,
    }
}

/// Whether the cause, if there is one, is a takeover.
pub fn is_takeover(cause: Option<Cause>) -> bool
    ensures { result ≡ is_takeover cause }
{
    matches!(cause, Some(Cause::Takeover(_)))
}

/// Whether the cause, if there is one, is a takeover of this pair.
pub fn is_takeover_by(cause: Option<Cause>, tcp: u32) -> bool
    ensures { result ≡ some_with (is_takeover_by tcp) cause }
{
    match cause {
        Some(Cause::Takeover(by)) => by == tcp,
        _ => false,
    }
}

/// Whether the cause, if there is one, is the failure of a server by this line.
pub fn is_server_by(cause: Option<Cause>, line: u32) -> bool
    ensures { result ≡ some_with (is_server_by line) cause }
{
    match cause {
        Some(Cause::Server(by)) => by == line,
        _ => false,
    }
}
