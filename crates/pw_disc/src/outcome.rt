ghost use Rattle.std.specs.Prelude.{◌≡◌, true, IfOk, OnErr};
ghost use Rattle.pw_tmf.specs.Tmf.{told_of};
ghost use Rattle.pw_disc.specs.Calls.{CanMake, IsAnswer, Makes, came_of, came_of_operation, is_done, is_operation};

use crate::call::DiscCall;
use pw_base::bytes::Bytes;
use pw_base::memory::Memory;
use pw_code::unit::Unit;
use pw_tmf::answer::{DiscFault, FileAnswer};
use pw_tmf::disc::Disc;
use pw_tmf::tmf::Tmf;

/// What a call comes to where memory does not run out.
#[derive(Debug, Drop)]
pub enum DiscOutcome {
    /// It was done, and answers nothing.
    Done,
    /// The operation was done, with this file status, and read this record, if any.
    Operated { status: u16, content: Option<Bytes> },
    /// Another unit holds a lock that conflicts with the operation's: the oldest such unit.
    Conflict(Unit),
}

impl DiscOutcome {
    /// Whether the call was done.
    pub fn is_done(&self) -> bool
        ensures { result ≡ is_done self.now }
    {
        !matches!(self, DiscOutcome::Conflict(_))
    }

    /// The answer of an operation.
    pub fn into_answer(self) -> FileAnswer
        requires { is_operation self ≡ true }
        ensures { IsAnswer self result }
    {
        match self {
            DiscOutcome::Done => unreachable!(),
            DiscOutcome::Operated { status, content } => FileAnswer::Done { status, content },
            DiscOutcome::Conflict(holder) => FileAnswer::Conflict(holder),
        }
    }
}

/// What a call came to that answers nothing. A `Tmf` does not fail.
fn plain(answer: Result<(), DiscFault>) -> Result<DiscOutcome, Memory>
    ensures { result ≡ came_of answer }
{
    match answer {
        Ok(()) => Ok(DiscOutcome::Done),
        Err(_fault) => Err(Memory),
    }
}

/// What an operation came to. A `Tmf` does not fail.
fn operated(answer: FileAnswer) -> Result<DiscOutcome, Memory>
    ensures { result ≡ came_of_operation answer }
{
    match answer {
        FileAnswer::Done { status, content } => Ok(DiscOutcome::Operated { status, content }),
        FileAnswer::Conflict(holder) => Ok(DiscOutcome::Conflict(holder)),
        FileAnswer::Failed | FileAnswer::Memory => Err(Memory),
    }
}

/// Makes a call of a member. An `Err` leaves all that is told.
pub fn make(tmf: &mut Tmf, call: DiscCall) -> Result<DiscOutcome, Memory>
    requires { CanMake (told_of tmf.old) call }
    ensures ok { IfOk result (λ outcome. Makes outcome (told_of tmf.old) call (told_of tmf.new)) }
    ensures err { OnErr result (told_of tmf.new ≡ told_of tmf.old) }
{
    match call {
        DiscCall::Begin(unit) => plain(tmf.begin(&unit)),
        DiscCall::Operate(unit, call) => operated(tmf.operate(&unit, &call)),
        DiscCall::Commit(unit, reply) => plain(tmf.commit(&unit, reply)),
        DiscCall::BackOut(units, ends) => plain(tmf.back_out(units.as_slice(), ends)),
    }
}
