ghost use Rattle.std.specs.Prelude.{◌≡◌, IfOk, if◌then◌else◌};
ghost use Rattle.pw_serial_order.specs.Seats.{again, path_answered, applied, attempt_begun, check_copy, check_end, check_start, done, down, unit_closed, is_idle, is_lacking, is_new, left, lost, new_seat, send_replied, rested, attempt_restarted, resumed, resumed_path, running_of, without_backup, without_memory};

use crate::mark::PathMark;
use pw_base::memory::Memory;

/// A terminal's open unit.
#[derive(Clone, Copy, Debug, PartialEq, Eq)]
pub struct MarkedUnit {
    pub number: u32,
    /// The start path of its attempt, while one runs.
    pub running: Option<PathMark>,
}

/// What a backup holds of a terminal.
#[derive(Clone, Copy, Debug, PartialEq, Eq)]
pub struct HeldMarks {
    pub unit: u32,
    pub start: PathMark,
    pub end: Option<PathMark>,
}

/// A checkpoint message in flight.
#[derive(Clone, Copy, Debug, PartialEq, Eq)]
pub enum CheckpointInFlight {
    /// A unit number and its start path, in place of what is held.
    Start { unit: u32, path: PathMark },
    /// The end path of the unit that is held.
    End(PathMark),
}

/// What the order keeps of a terminal.
#[derive(Clone, Copy, Debug, PartialEq, Eq)]
pub struct OrderSeat {
    /// The number of its pair.
    pub tcp: u32,
    /// Whether it has no ending.
    pub live: bool,
    pub path: PathMark,
    /// The length of the longest path that it had while no attempt of it ran.
    pub longest: u32,
    /// The number of its last ended unit.
    pub last: u32,
    pub unit: Option<MarkedUnit>,
    pub memory: Option<HeldMarks>,
    pub flight: Option<CheckpointInFlight>,
}

impl OrderSeat {
    /// The seat of a terminal before the first entry.
    pub fn new(tcp: u32) -> OrderSeat
        ensures { result ≡ new_seat tcp }
    {
        OrderSeat {
            tcp,
            live: true,
            path: PathMark::start(),
            longest: 0,
            last: 0,
            unit: None,
            memory: None,
            flight: None,
        }
    }

    /// The start path of the attempt that runs.
    pub fn running(self) -> Option<PathMark>
        ensures { result ≡ running_of self.unit }
    {
        self.unit?.running
    }

    /// Whether no attempt runs.
    pub fn is_idle(self) -> bool
        ensures { result ≡ is_idle self }
    {
        self.running().is_none()
    }

    /// Whether one more answer on the path makes it longer than every path before while no attempt
    /// ran, and none runs now.
    pub fn is_new(self) -> bool
        ensures { result ≡ is_new self }
    {
        self.is_idle() && self.longest <= self.path.answers
    }

    /// Whether it is live, and its backup lacks it.
    pub fn is_lacking(self) -> bool
        ensures { result ≡ is_lacking self }
    {
        self.live && self.memory.is_none()
    }

    /// The path counts among the longest where no attempt runs.
    fn rested(self) -> OrderSeat
        ensures { result ≡ rested self }
    {
        if self.is_idle() {
            OrderSeat {
                longest: self.longest.max(self.path.answers),
                ..self
            }
        } else {
            self
        }
    }

    /// Its path gets an answer that neither begins nor ends a unit.
    pub fn answered(self) -> Result<OrderSeat, Memory>
        ensures { IfOk result (λ seat. seat ≡ path_answered self) }
    {
        let path = self.path.more()?;
        Ok(OrderSeat { path, ..self }.rested())
    }

    /// Its path gets a kept reply again.
    pub fn again(self) -> Result<OrderSeat, Memory>
        ensures { IfOk result (λ seat. seat ≡ again self) }
    {
        let path = self.path.replied()?;
        Ok(OrderSeat { path, ..self }.rested())
    }

    /// A message with its path is in flight.
    pub fn check_start(self) -> Result<OrderSeat, Memory>
        ensures { IfOk result (λ seat. seat ≡ check_start self) }
    {
        let (unit, path) = (self.path.unit()?, self.path);
        Ok(OrderSeat {
            flight: Some(CheckpointInFlight::Start { unit, path }),
            ..self
        })
    }

    /// A message with the path behind its unit's end is in flight.
    pub fn check_end(self) -> Result<OrderSeat, Memory>
        ensures { IfOk result (λ seat. seat ≡ check_end self) }
    {
        let path = self.path.closed()?;
        Ok(OrderSeat {
            flight: Some(CheckpointInFlight::End(path)),
            ..self
        })
    }

    /// A message for a new backup is in flight.
    pub fn check_copy(self) -> Result<OrderSeat, Memory>
        ensures { IfOk result (λ seat. seat ≡ check_copy self) }
    {
        let path = self.running().unwrap_or(self.path);
        let unit = path.unit()?;
        Ok(OrderSeat {
            flight: Some(CheckpointInFlight::Start { unit, path }),
            ..self
        })
    }

    /// The backup takes the message in.
    pub fn applied(self) -> OrderSeat
        ensures { result ≡ applied self }
    {
        let memory = match self.flight {
            None => self.memory,
            Some(CheckpointInFlight::Start { unit, path }) => Some(HeldMarks {
                unit,
                start: path,
                end: None,
            }),
            Some(CheckpointInFlight::End(path)) => match self.memory {
                None => None,
                Some(held) => Some(HeldMarks {
                    end: Some(path),
                    ..held
                }),
            },
        };
        OrderSeat {
            memory,
            flight: None,
            ..self
        }
    }

    /// An attempt of the unit of this number begins. `one_send` tells whether the unit is one SEND.
    pub fn begun(self, number: u32, one_send: bool) -> Result<OrderSeat, Memory>
        ensures { IfOk result (λ seat. seat ≡ attempt_begun number one_send self) }
    {
        let path = if one_send {
            self.path
        } else {
            self.path.begun()?
        };
        let unit = MarkedUnit {
            number: self.unit.map_or(number, |unit| unit.number),
            running: Some(self.path),
        };
        Ok(OrderSeat {
            unit: Some(unit),
            path,
            ..self
        })
    }

    /// The unit of this number ends, with an answer on the path.
    pub fn ended(self, number: u32) -> Result<OrderSeat, Memory>
        ensures { IfOk result (λ seat. seat ≡ unit_closed number self) }
    {
        let path = self.path.closed()?;
        let seat = OrderSeat {
            unit: None,
            last: number,
            path,
            ..self
        };
        Ok(seat.rested())
    }

    /// A server replies, and a unit ends that is one SEND.
    pub fn replied(self) -> Result<OrderSeat, Memory>
        ensures { IfOk result (λ seat. seat ≡ send_replied self) }
    {
        if self.path.within {
            self.answered()
        } else {
            self.ended(self.path.unit()?)
        }
    }

    /// The attempt goes back to its start.
    pub fn restarted(self) -> OrderSeat
        ensures { result ≡ attempt_restarted self }
    {
        let path = self.running().unwrap_or(self.path);
        let unit = match self.unit {
            None => None,
            Some(unit) => Some(MarkedUnit {
                running: None,
                ..unit
            }),
        };
        OrderSeat { unit, path, ..self }.rested()
    }

    /// The open unit is left.
    fn left(self) -> OrderSeat
        ensures { result ≡ left self }
    {
        match self.unit {
            None => self,
            Some(unit) => OrderSeat {
                unit: None,
                last: unit.number,
                ..self
            },
        }
    }

    /// The terminal ends. `leaves` tells whether its open unit, if there is one, is left.
    pub fn done(self, leaves: bool) -> OrderSeat
        ensures { result ≡ done leaves self }
    {
        let seat = if leaves { self.left() } else { self };
        OrderSeat {
            live: false,
            memory: None,
            flight: None,
            ..seat
        }
        .rested()
    }

    /// Its pair is lost.
    pub fn lost(self) -> OrderSeat
        ensures { result ≡ lost self }
    {
        let seat = self.left();
        OrderSeat {
            path: PathMark::start(),
            memory: None,
            flight: None,
            ..seat
        }
    }

    /// Its pair's primary is lost.
    pub fn down(self) -> OrderSeat
        ensures { result ≡ down self }
    {
        OrderSeat {
            path: PathMark::start(),
            flight: None,
            ..self
        }
    }

    /// Its pair's backup is lost.
    pub fn without_backup(self) -> OrderSeat
        ensures { result ≡ without_backup self }
    {
        OrderSeat {
            memory: None,
            flight: None,
            ..self
        }
    }

    /// Its pair has a new backup, or none.
    pub fn without_memory(self) -> OrderSeat
        ensures { result ≡ without_memory self }
    {
        OrderSeat {
            memory: None,
            ..self
        }
    }

    /// The path at which a takeover goes on.
    fn resumed_path(self) -> PathMark
        ensures { result ≡ resumed_path self }
    {
        match self.memory {
            None => self.path,
            Some(held) if held.unit == self.last => held.end.unwrap_or(held.start),
            Some(held) => held.start,
        }
    }

    /// Its pair's backup takes over.
    pub fn resumed(self) -> OrderSeat
        ensures { result ≡ resumed self }
    {
        if !self.live {
            return self.without_memory();
        }
        let path = self.resumed_path();
        OrderSeat {
            path,
            memory: None,
            ..self
        }
        .rested()
    }
}
