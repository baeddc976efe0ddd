//! Parts by themselves, where what is kept asks them.

ghost use Rattle.std.specs.Prelude.{◌≡◌, All, IfErr, IfOk, OnOk, map, true};
ghost use Rattle.std.specs.Option.{option_copied};
ghost use Rattle.pw_world_store.specs.Calls.{call_of, given_to};
ghost use Rattle.pw_world_store.specs.Each.{is_left, loss_of};
ghost use Rattle.pw_world_store.specs.Keeps.{terminals_in};
ghost use Rattle.pw_pair.specs.Called.{member_fails};
ghost use Rattle.pw_world_store.specs.Jobs.{dropped_for};
ghost use Rattle.pw_tmf.specs.Answers.{Leaves};
ghost use Rattle.pw_tmf.specs.Units.{HaveDistinctTerminals, CanBackOut, all_backed_out};

use crate::job::{Jobs, ProcessJob};
use pw_base::memory::Memory;
use pw_class::request::Request;
use pw_code::file::FileCall;
use pw_code::unit::Unit;
use pw_code::verb::Verb;
use pw_event::event::Ending;
use pw_pair::mode::Mode;
use pw_pair::pair::Pair;
use pw_tmf::answer::DiscFault;
use pw_tmf::disc::Disc;
use std::alloc::Global;

/// A member of a pair fails.
pub fn fail(pair: &mut Pair, primary: bool)
    ensures { pair.new ≡ member_fails primary pair.old }
{
    if primary {
        pair.fail_primary();
    } else {
        pair.fail_backup();
    }
}

/// The call at which a job stands, if it does.
pub fn call_of(job: Option<&ProcessJob>) -> Option<&FileCall>
    ensures { option_copied result ≡ call_of (option_copied job.entry) }
{
    match job {
        Some(job) => match &job.verb {
            Some(Verb::File(call)) => Some(call),
            _ => None,
        },
        None => None,
    }
}

/// The process and the terminal of a request, where both are there.
pub fn given(request: Option<&Request>, process: Option<u32>) -> Option<(u32, u32)>
    ensures { result ≡ given_to process (option_copied request.entry) }
{
    match (process, request) {
        (Some(process), Some(request)) => Some((process, request.terminal)),
        _ => None,
    }
}

/// The terminals of a pair.
pub fn members(alloc: Global, pair: &Pair) -> Result<Vec<u32>, Memory>
    ensures { IfOk result (λ terminals. terminals.items ≡ terminals_in pair.now) }
{
    let mut terminals = Vec::new(alloc);
    let seats = pair.seats();
    for seat in seats {
        terminals.push(seat.terminal)?;
    }
    Ok(terminals)
}

/// Drops the jobs for a terminal in each class.
pub fn drop_jobs(jobs: &mut Vec<Jobs>, terminal: u32)
    ensures { jobs.new.items ≡ map (map (dropped_for terminal)) jobs.old.items }
{
    for class in jobs.iter_mut() {
        class.drop_for(terminal);
    }
}

/// What terminals lose where a member of their pair fails.
#[derive(Clone, Copy, Debug, PartialEq, Eq)]
pub enum TerminalLoss {
    Nothing,
    /// Their requests and their paths.
    Paths,
    /// These and their open units.
    Units,
}

/// Units are backed out and end, if there are any.
pub fn back_out<D: Disc>(disc: &mut D, units: &[Unit]) -> Result<(), DiscFault>
    requires apart { HaveDistinctTerminals units.now }
    requires may { All (CanBackOut true (D.told disc.old)) units.now }
    ensures ok { OnOk result (D.told disc.new ≡ all_backed_out true (D.told disc.old) units.now) }
    ensures err { IfErr result (λ fault. Leaves fault (D.told disc.old) (D.told disc.new)) }
{
    if units.is_empty() {
        return Ok(());
    }
    disc.back_out(units, true)
}

/// What is lost where a member of a pair fails in a mode.
pub fn loss_in(mode: Mode, primary: bool) -> TerminalLoss
    ensures { result ≡ loss_of primary mode }
{
    match (mode, primary) {
        (Mode::Paired, true) => TerminalLoss::Paths,
        (Mode::Raising | Mode::Alone, true) | (Mode::Down, false) => TerminalLoss::Units,
        _ => TerminalLoss::Nothing,
    }
}

/// Whether the open unit of a terminal is left at an ending.
pub fn is_left(ending: &Ending) -> bool
    ensures { result ≡ is_left ending.now }
{
    !matches!(ending, Ending::Stopped | Ending::Lost)
}
