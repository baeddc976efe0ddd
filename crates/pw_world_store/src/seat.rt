ghost use Rattle.std.specs.Prelude.{◌≡◌, ◌-◌, ◌<◌, ◌^◌};
ghost use Rattle.std.specs.Option.{option_map};
ghost use Rattle.pw_world_store.specs.Seats.{seat_answered, seat_before_verb, seat_ended, first_seat, seat_unit_over, ready_at, seat_restarted, resumed, runs_unit, started, without_path};

use pw_code::context::Context;
use pw_code::unit::Unit;
use pw_code::verb::Verb;
use pw_event::event::{Cause, Ending};

/// A unit of another terminal, by its number there.
#[derive(Clone, Copy, Debug, PartialEq, Eq)]
pub struct AwaitedUnit {
    pub terminal: u32,
    pub number: u32,
}

/// A program at its next verb.
#[derive(Drop)]
pub struct Ready {
    pub verb: Verb,
    pub context: Context,
}

/// What a monitor keeps of a terminal (docs/design/ARCHITECTURE.md).
#[derive(Drop)]
pub struct Seat {
    /// The context of its path at the last answer, none where the path is gone.
    pub context: Option<Context>,
    /// Its program at its next verb, where it has run on to that.
    pub ready: Option<Ready>,
    /// The context of the start path of the attempt that runs, if one does.
    pub start: Option<Context>,
    /// Its open unit, as the disc is asked for it.
    pub unit: Option<Unit>,
    /// The recorded restarts of its open unit.
    pub restarts: u32,
    /// The unit that its open unit awaits.
    pub awaits: Option<AwaitedUnit>,
    /// The cause that is pending for it.
    pub pending: Option<Cause>,
    /// Its ending, once it has one.
    pub ending: Option<Ending>,
}

impl Seat {
    /// A terminal before its first entry.
    pub fn new(context: Context) -> Seat
        ensures { result ≡ first_seat context }
    {
        Seat {
            context: Some(context),
            ready: None,
            start: None,
            unit: None,
            restarts: 0,
            awaits: None,
            pending: None,
            ending: None,
        }
    }

    /// Whether an attempt of the unit of this number runs.
    pub fn runs_unit(&self, number: u32) -> bool
        ensures { result ≡ runs_unit number self.now }
    {
        match &self.unit {
            Some(unit) => unit.number == number && self.start.is_some(),
            None => false,
        }
    }

    /// Its program has run on to this verb.
    pub fn run_on(&mut self, verb: Verb, context: Context)
        ensures { self.new ≡ ready_at verb context self.old }
    {
        self.ready = Some(Ready { verb, context });
    }

    /// Its program stands at its last answer again. The context with which it stood at its verb leaves the seat.
    pub fn leave_verb(&mut self) -> Option<Context>
        ensures context { result ≡ option_map (λ at. at.context) self.old.ready }
        ensures left { self.new ≡ seat_before_verb self.old }
    {
        match self.ready.take() {
            Some(Ready { context, .. }) => Some(context),
            None => None,
        }
    }

    /// Its program goes on with this context, which has one answer more.
    pub fn answer(&mut self, context: Context)
        ensures { self.new ≡ seat_answered context self.old }
    {
        self.context = Some(context);
        self.ready = None;
    }

    /// An attempt of the unit runs, from this context.
    pub fn begin(&mut self, unit: Unit, start: Context)
        ensures { self.new ≡ started unit start self.old }
    {
        self.start = Some(start);
        self.unit = Some(unit);
    }

    /// No unit of it is open.
    pub fn end_unit(&mut self)
        ensures { self.new ≡ seat_unit_over self.old }
    {
        self.start = None;
        self.unit = None;
        self.restarts = 0;
        self.awaits = None;
    }

    /// It is at its start again, and the restart is recorded.
    pub fn restart(&mut self, cause: Cause)
        requires { self.old.restarts < 2 ^ 32 - 1 }
        ensures { self.new ≡ seat_restarted cause self.old }
    {
        self.context = self.start.take();
        self.ready = None;
        self.restarts += 1;
        if let Cause::Older { terminal, unit } = cause {
            self.awaits = Some(AwaitedUnit {
                terminal,
                number: unit,
            });
        }
        self.pending = None;
    }

    /// Its path is gone.
    pub fn lose_path(&mut self)
        ensures { self.new ≡ without_path self.old }
    {
        self.context = None;
        self.ready = None;
        self.pending = None;
    }

    /// It goes on with this context, and where a cause is given, that is pending.
    pub fn resume(&mut self, context: Context, cause: Option<Cause>)
        ensures { self.new ≡ resumed context cause self.old }
    {
        self.context = Some(context);
        self.ready = None;
        if cause.is_some() {
            self.pending = cause;
        }
    }

    /// It has this ending.
    pub fn end(&mut self, ending: Ending)
        ensures { self.new ≡ seat_ended ending self.old }
    {
        self.pending = None;
        self.ending = Some(ending);
    }
}
