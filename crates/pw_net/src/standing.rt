ghost use Rattle.std.specs.Prelude.{◌≡◌};
ghost use Rattle.pw_net.specs.Member.{mark_in};
ghost use Rattle.pw_net.specs.Kept.{since};
ghost use Rattle.pw_net.specs.declared.standing.TransactionState.TheVariants.{Aborted};

use crate::ballot::Ballot;
use crate::message::Mark;

/// A transaction's mark, with the votes while they are collected.
#[derive(Debug, Drop)]
pub enum TransactionState {
    Collecting(Ballot),
    Prepared,
    Committed,
    Aborted,
}

impl TransactionState {
    /// Its mark, without the votes.
    pub fn mark(&self) -> Mark
        ensures { result ≡ mark_in self.now }
    {
        match self {
            TransactionState::Collecting(_) => Mark::Collecting,
            TransactionState::Prepared => Mark::Prepared,
            TransactionState::Committed => Mark::Committed,
            TransactionState::Aborted => Mark::Aborted,
        }
    }

    /// What stands since the last restart, where votes for numbers up to one are lost: then it is
    /// `aborted`.
    pub fn since<'a>(
        &'a self,
        aborted: &'a TransactionState,
        lost: u32,
        number: u32,
    ) -> &'a TransactionState
        requires { aborted.now ≡ Aborted }
        ensures { result.now ≡ since lost number self.now }
    {
        match self {
            TransactionState::Collecting(_) if number <= lost => aborted,
            standing => standing,
        }
    }
}
