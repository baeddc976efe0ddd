//! What the books get of an entry.

ghost use Rattle.std.specs.Prelude.{◌≡◌, IfOk, length};
ghost use Rattle.pw_world_store.specs.Keeps.{kept_in};
ghost use Rattle.pw_laws.specs.legal.Verbs.{asks_send};
ghost use Rattle.pw_world.specs.Bookings.{IsBookingOf, mode_in};
ghost use Rattle.pw_world.specs.Ledgers.{listed};
ghost use Rattle.pw_world.specs.States.{seen};
ghost use Rattle.pw_world_model.specs.Dues.{IsOwner};
ghost use Rattle.pw_world_model.specs.OneSends.{begins_one_send};
ghost use Rattle.pw_world_model.specs.Pushed.{CanPush};
ghost use Rattle.pw_world_model.specs.Seen.{state_of, sys_of};
ghost use Rattle.pw_paired.specs.Shown.{refresh_of};

use crate::actors::owner_of;
use crate::world::World;
use pw_actor_queue::actor::Actor;
use pw_base::memory::Memory;
use pw_code::verb::Verb;
use pw_event::event::Event;
use pw_event::script::Owner;
use pw_onecopy::refresh::Refresh;
use pw_pair::mode::Mode;
use pw_terminal::shown::ShownScreen;
use pw_tmf::disc::Disc;
use pw_world_store::keep::Keep;

/// What the books get of an entry. It is worked out before the entry is made.
#[derive(Drop)]
pub struct Booking {
    pub owner: Owner,
    /// Whether the entry is the BEGIN of a unit that is one SEND.
    pub one_send: bool,
    pub refresh: Option<Refresh>,
    /// The actors that the entry touches itself.
    pub touched: Vec<Actor>,
    /// The mode of the pair to which the entry belongs, if it belongs to one.
    pub mode: Option<Mode>,
}

impl<D: Disc> World<D> {
    /// What the books get of an entry that can be pushed.
    pub(crate) fn booking(&self, entry: &Event) -> Result<Booking, Memory>
        requires { CanPush (seen D.told self.now) entry.now }
        ensures { IfOk result (IsBookingOf (seen D.told self.now) entry.now) }
    {
        let owner = owner_of(self.keep.system(), entry);
        Ok(Booking {
            owner,
            one_send: self.begins_one_send(entry),
            refresh: self.refresh_of(entry)?,
            touched: self.touched(entry)?,
            mode: mode_of(&self.keep, owner),
        })
    }

    /// The refresh that an entry makes.
    fn refresh_of(&self, entry: &Event) -> Result<Option<Refresh>, Memory>
        requires { CanPush (seen D.told self.now) entry.now }
        ensures { IfOk result (λ refresh. listed refresh
            ≡ refresh_of (sys_of (seen D.told self.now)) (state_of (seen D.told self.now)) entry.now) }
    {
        let Event::Show {
            terminal,
            phase,
            attempt,
            k,
        } = *entry
        else {
            return Ok(None);
        };
        let Some(ready) = &self.keep.seat(terminal).ready else {
            unreachable!();
        };
        let image = ShownScreen::of(self.alloc, &ready.context.screen)?;
        Ok(Some(Refresh {
            terminal,
            phase,
            attempt,
            k,
            image,
        }))
    }

    /// Whether an entry is the BEGIN of a unit that is one SEND.
    fn begins_one_send(&self, entry: &Event) -> bool
        requires { CanPush (seen D.told self.now) entry.now }
        ensures { result
            ≡ begins_one_send (sys_of (seen D.told self.now)) (state_of (seen D.told self.now))
            entry.now }
    {
        let Event::Begin { terminal, .. } = *entry else {
            return false;
        };
        match &self.keep.seat(terminal).ready {
            Some(ready) => asks_send(&ready.verb),
            None => false,
        }
    }
}

/// The mode of the pair of an owner, if it is one.
fn mode_of<D: Disc>(keep: &Keep<D>, owner: Owner) -> Option<Mode>
    requires { IsOwner (length keep.now.system.tcps) (length keep.now.system.classes) owner }
    ensures { result ≡ mode_in (kept_in D.told keep.now) owner }
{
    match owner {
        Owner::Tcp(tcp) => Some(keep.pair(tcp).mode()),
        Owner::Class(_) => None,
    }
}

/// Whether a verb is a SEND.
fn asks_send(verb: &Verb) -> bool
    ensures { result ≡ asks_send verb.now }
{
    matches!(verb, Verb::Send { .. })
}
