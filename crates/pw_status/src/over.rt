ghost use Rattle.std.specs.Prelude.{◌≡◌};
ghost use Rattle.pw_status.specs.Over.{begun_terminal, left_at, over_at, over_if};

use pw_event::event::Event;
use pw_serial_order::block::How;
use pw_serial_order::entry::leaves;

/// Terminals: one, or those of a pair.
#[derive(Clone, Copy, Debug, PartialEq, Eq)]
pub enum Whose {
    One(u32),
    Pair(u32),
}

/// The attempts of these terminals are over, and how.
#[derive(Clone, Copy, Debug, PartialEq, Eq)]
pub struct Over {
    pub whose: Whose,
    pub how: How,
}

/// The terminal of which an entry begins an attempt.
pub fn begun(entry: &Event) -> Option<u32>
    ensures { result ≡ begun_terminal entry.now }
{
    match *entry {
        Event::Begin { terminal, .. } => Some(terminal),
        _ => None,
    }
}

/// The attempts that are over at an entry. `ends` tells of a REPLY whether it commits its unit, and of a FAIL TCP
/// whether it loses its pair.
pub fn over_at(entry: &Event, ends: bool) -> Option<Over>
    ensures { result ≡ over_at ends entry.now }
{
    match *entry {
        Event::Commit { terminal, .. } => over_if(true, Whose::One(terminal), How::Commit),
        Event::Back { terminal, .. } => over_if(true, Whose::One(terminal), How::Dropped),
        Event::Restart { terminal, .. } => over_if(true, Whose::One(terminal), How::Restart),
        Event::Reply {
            terminal,
            fault,
            ..
        } => over_if(ends && fault.is_none(), Whose::One(terminal), How::Commit),
        Event::End { terminal, ending } => {
            over_if(leaves(ending), Whose::One(terminal), How::Left)
        }
        Event::FailTcp { tcp, .. } => over_if(ends, Whose::Pair(tcp), How::Left),
        _ => None,
    }
}

/// The attempts of these terminals, which are over so where `ends` says it.
fn over_if(ends: bool, whose: Whose, how: How) -> Option<Over>
    ensures { result ≡ over_if ends whose how }
{
    ends.then_some(Over { whose, how })
}

/// The terminals whose attempts, so far as they run, are left at an entry. `ends` tells whether a FAIL TCP loses its
/// pair.
pub fn left_at(entry: &Event, ends: bool) -> Option<Whose>
    ensures { result ≡ left_at ends entry.now }
{
    match *entry {
        Event::End { terminal, .. } => Some(Whose::One(terminal)),
        Event::FailTcp { tcp, .. } => ends.then_some(Whose::Pair(tcp)),
        _ => None,
    }
}
