ghost use Rattle.std.specs.Prelude.{◌≡◌, ◌+◌, false, IfOk};
ghost use Rattle.pw_serial_order.specs.Marks.{mark_begun, mark_closed, mark_more, mark_replied};

use pw_base::memory::Memory;

/// How far a path goes.
#[derive(Clone, Copy, Debug, PartialEq, Eq)]
pub struct PathMark {
    /// How many answers it has.
    pub answers: u32,
    /// How many units have ended on it.
    pub ended: u32,
    /// Whether it is in a transaction.
    pub within: bool,
}

/// The number behind another. There is no memory for a path of so many answers that it has none.
fn behind(number: u32) -> Result<u32, Memory>
    ensures { IfOk result (λ next. next ≡ number + 1) }
{
    number.checked_add(1).ok_or(Memory)
}

impl PathMark {
    /// The empty path.
    pub fn start() -> PathMark
        ensures { result ≡ record { answers = 0; ended = 0; within = false } }
    {
        PathMark {
            answers: 0,
            ended: 0,
            within: false,
        }
    }

    /// The number of the unit that comes next on the path, or runs at its end.
    pub fn unit(self) -> Result<u32, Memory>
        ensures { IfOk result (λ unit. unit ≡ self.ended + 1) }
    {
        behind(self.ended)
    }

    /// One more answer, which neither begins nor ends a unit.
    pub fn more(self) -> Result<PathMark, Memory>
        ensures { IfOk result (λ mark. mark ≡ mark_more self) }
    {
        Ok(PathMark {
            answers: behind(self.answers)?,
            ended: self.ended,
            within: self.within,
        })
    }

    /// The answer with which a transaction begins.
    pub fn begun(self) -> Result<PathMark, Memory>
        ensures { IfOk result (λ mark. mark ≡ mark_begun self) }
    {
        Ok(PathMark {
            answers: behind(self.answers)?,
            ended: self.ended,
            within: true,
        })
    }

    /// An answer with which a unit ends.
    pub fn closed(self) -> Result<PathMark, Memory>
        ensures { IfOk result (λ mark. mark ≡ mark_closed self) }
    {
        Ok(PathMark {
            answers: behind(self.answers)?,
            ended: behind(self.ended)?,
            within: false,
        })
    }

    /// A reply, with which a unit ends that is one SEND.
    pub fn replied(self) -> Result<PathMark, Memory>
        ensures { IfOk result (λ mark. mark ≡ mark_replied self) }
    {
        if self.within {
            self.more()
        } else {
            self.closed()
        }
    }
}
