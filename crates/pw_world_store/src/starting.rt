//! What is kept before the first entry, part by part.

ghost use Rattle.std.specs.Prelude.{◌≡◌, ◌<◌, ◌^◌, IfOk, length, map};
ghost use Rattle.pw_code.specs.Valid.{IsValid};
ghost use Rattle.pw_world_store.specs.Starting.{AreFirstPairs, no_jobs_for, seat_for};
ghost use Rattle.pw_world_state.specs.Members.{members_from};

use crate::job::Jobs;
use crate::seat::Seat;
use pw_base::memory::Memory;
use pw_code::system::{ClassInfo, System, TermInfo};
use pw_machine::run::start;
use pw_pair::pair::Pair;
use std::alloc::Global;

/// Each terminal at the start of its program.
pub fn first_seats(alloc: Global, system: &System) -> Result<Vec<Seat>, Memory>
    requires { IsValid system.now }
    ensures { IfOk result (λ seats. seats.items ≡ map (seat_for system.now) system.now.terminals) }
{
    let mut seats = Vec::new(alloc);
    for terminal in system.terminals.as_slice() {
        seats.push(Seat::new(start(alloc, system, terminal.program)?))?;
    }
    Ok(seats)
}

/// Each process of each class without a job.
pub fn no_jobs(alloc: Global, classes: &[ClassInfo]) -> Result<Vec<Jobs>, Memory>
    ensures { IfOk result (λ jobs. jobs.items ≡ map no_jobs_for classes.now) }
{
    let mut jobs = Vec::new(alloc);
    for class in classes {
        jobs.push(Jobs::new(alloc, class.processes)?)?;
    }
    Ok(jobs)
}

/// The terminals of a pair, in order.
fn members(alloc: Global, terminals: &[TermInfo], tcp: u32) -> Result<Vec<u32>, Memory>
    requires { length terminals.now < 2 ^ 32 }
    ensures { IfOk result (λ members. members.items ≡ members_from tcp 0 terminals.now) }
{
    let mut members = Vec::new(alloc);
    for (place, terminal) in terminals.iter().enumerate() {
        if terminal.tcp == tcp {
            members.push(place as u32)?;
        }
    }
    Ok(members)
}

/// Each pair with its terminals, alone.
pub fn first_pairs(alloc: Global, system: &System) -> Result<Vec<Pair>, Memory>
    requires { IsValid system.now }
    ensures { IfOk result (λ pairs. AreFirstPairs system.now (length system.now.tcps) pairs.items) }
{
    let mut pairs = Vec::new(alloc);
    for tcp in 0..system.tcps.len() as u32 {
        let members = members(alloc, system.terminals.as_slice(), tcp)?;
        pairs.push(Pair::new(alloc, members.as_slice())?)?;
    }
    Ok(pairs)
}
