ghost use Rattle.std.specs.Prelude.{IfErr, OnOk};
ghost use Rattle.pw_entry_effects.specs.Can.{CanAct};
ghost use Rattle.pw_world_store.specs.Calls.{members_in};
ghost use Rattle.pw_world_store.specs.Keeps.{IsChanged, IsRefused, kept_in};
ghost use Rattle.pw_world_state.specs.Entered.{entered};

use crate::checkpoints::{applied, check_copy, check_end, check_start};
use crate::servers::{file, reply, take};
use crate::terminals::{again, key, send, show};
use crate::units::{back, begin, commit};
use pw_event::event::Event;
use pw_tmf::answer::DiscFault;
use pw_tmf::disc::Disc;
use pw_world_store::keep::Keep;

/// Does an entry to what is kept (docs/design/ARCHITECTURE.md). An `Err` leaves all as it was, but for the disc's
/// count where the disc failed.
pub fn act<D: Disc>(keep: &mut Keep<D>, entry: &Event) -> Result<(), DiscFault>
    requires { CanAct keep.old.system (kept_in D.told keep.old) entry.now }
    ensures ok { OnOk result (IsChanged D.told (entered keep.old.system (members_in (kept_in D.told keep.old)) entry.now) keep.old keep.new) }
    ensures err { IfErr result (λ fault. IsRefused D.told fault keep.old keep.new) }
{
    match *entry {
        Event::Show { terminal, .. } => {
            show(keep, terminal);
            Ok(())
        }
        Event::Key { terminal, k } => Ok(key(keep, terminal, k)?),
        Event::CheckStart { terminal } => Ok(check_start(keep, terminal)?),
        Event::CheckEnd { terminal } => Ok(check_end(keep, terminal)?),
        Event::CheckCopy { terminal } => Ok(check_copy(keep, terminal)?),
        Event::Applied { terminal } => Ok(applied(keep, terminal)?),
        Event::Begin {
            terminal,
            unit,
            restarts,
        } => begin(keep, terminal, unit, restarts),
        Event::Send {
            terminal,
            unit,
            class,
        } => Ok(send(keep, terminal, unit, class)?),
        Event::Take {
            class,
            process,
            terminal,
        } => Ok(take(keep, class, process, terminal)?),
        Event::File { class, process, .. } => file(keep, class, process),
        Event::Reply {
            class,
            process,
            terminal,
            fault,
        } => reply(keep, class, process, terminal, fault),
        Event::Again { terminal, .. } => Ok(again(keep, terminal)?),
        Event::Commit { terminal, unit } => commit(keep, terminal, unit),
        Event::Back { terminal, unit } => back(keep, terminal, unit),
        Event::Restart {
            terminal,
            unit,
            cause,
        } => keep.restart(terminal, unit, cause),
        Event::FailTcp { tcp, primary, .. } => keep.fail_tcp(tcp, primary),
        Event::FailServer {
            class,
            process,
            line,
        } => {
            keep.fail_server(class, process, line);
            Ok(())
        }
        Event::Takeover { tcp } => Ok(keep.takeover(tcp)?),
        Event::Raise { tcp } => Ok(keep.raise(tcp)?),
        Event::End { terminal, ending } => keep.end(terminal, ending),
    }
}
