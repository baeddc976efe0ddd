//! What is kept is read.

ghost use Rattle.std.specs.Prelude.{◌≡◌, ◌≢◌, ◌<◌, ◌≤◌, length, IfOk, IfSome, is_some, option_map, slice_get, ◌+◌};
ghost use Rattle.std.specs.Option.{option_copied};
ghost use Rattle.pw_class.specs.Book.{IsAt};
ghost use Rattle.pw_class.specs.Queue.{at_process, free_place, taken};
ghost use Rattle.pw_world_store.specs.Calls.{request_given};
ghost use Rattle.pw_world_store.specs.Keeps.{HasVerb, JobHasVerb, is_run, job_of, jobs_at, kept_in, kept_of, terminals_in};
ghost use Rattle.pw_world_state.specs.Members.{AreOf};
ghost use Rattle.pw_world_state.specs.TerminalTests.{is_out};
ghost use Rattle.pw_world_store.specs.Jobs.{context_of};
ghost use Rattle.pw_tmf.specs.Answers.{Foresees, ended_unit};
ghost use Rattle.pw_tmf.specs.Committed.{committed};
ghost use Rattle.pw_tmf.specs.Leaving.{unit_told};
ghost use Rattle.pw_tmf.specs.Operation.{IsCall, awaits};
ghost use Rattle.pw_tmf.specs.Units.{IsOpen, IsRunning};

use crate::job::ProcessJob;
use crate::keep::Keep;
use crate::pieces::given;
use crate::seat::Seat;
use pw_base::bytes::Bytes;
use pw_base::memory::Memory;
use pw_class::request::{Request, RequestPlace};
use pw_code::file::FileCall;
use pw_code::unit::Unit;
use pw_pair::pair::Pair;
use pw_tmf::answer::{Ended, Foreseen};
use pw_tmf::disc::Disc;
use std::alloc::Global;

impl<D: Disc> Keep<D> {
    /// What is kept of a terminal.
    pub fn seat(&self, terminal: u32) -> &Seat
        requires { terminal < length self.now.system.terminals }
        ensures kept { kept_of result.now ≡ (kept_in D.told self.now).terminals terminal }
        ensures unit { result.now.unit ≡ unit_told terminal ((kept_in D.told self.now).disc.units terminal) }
        ensures runs { is_some result.now.start ≡ is_run ((kept_in D.told self.now).disc.units terminal) }
        ensures verb { HasVerb self.now.system result.now }
    {
        &self.seats[terminal as usize]
    }

    /// The last ended unit of a terminal, None exactly where none has ended.
    pub fn ended(&self, terminal: u32) -> Option<&Ended>
        requires known { terminal < length self.now.system.terminals }
        ensures { option_copied result ≡ ended_unit ((kept_in D.told self.now).disc.ended terminal) }
    {
        self.disc.ended(terminal)
    }

    /// The committed records of a file, in the order of their keys.
    pub fn records(&self, alloc: Global, file: u32) -> Result<Vec<Bytes>, Memory>
        requires known { file < length self.now.system.files }
        ensures { IfOk result (λ records. records.items ≡ committed (kept_in D.told self.now).disc file) }
    {
        self.disc.committed(alloc, file)
    }

    /// Whether a request of the terminal waits, or a process works on it.
    pub fn is_out(&self, terminal: u32) -> bool
        ensures { result ≡ is_out self.now.system (kept_in D.told self.now) terminal }
    {
        self.classes.request_of(terminal).is_some()
    }

    /// Where a request of the terminal is, None exactly where none waits and none is at a process.
    pub fn request_of(&self, terminal: u32) -> Option<RequestPlace>
        ensures found { is_some result ≡ is_out self.now.system (kept_in D.told self.now) terminal }
        ensures place { IfSome result (IsAt self.now.book terminal) }
    {
        self.classes.request_of(terminal)
    }

    /// The process of a class that takes the first waiting request, and the terminal of that. None exactly where no
    /// request waits, or no process is free.
    pub fn taken(&self, class: u32) -> Option<(u32, u32)>
        requires class { class < length self.now.system.classes }
        ensures { result ≡ request_given (taken ((kept_in D.told self.now).queues class)) }
    {
        given(self.first(class), self.free_process(class))
    }

    /// The free process of smallest number of a class, None exactly where none is free.
    fn free_process(&self, class: u32) -> Option<u32>
        requires class { class < length self.now.system.classes }
        ensures { result ≡ option_map (λ place. place + 1) (free_place ((kept_in D.told self.now).queues class)) }
    {
        match self.jobs[class as usize].free_place() {
            Some(place) => Some(place as u32 + 1),
            None => None,
        }
    }

    /// How many requests wait for a class.
    pub fn waiting(&self, class: u32) -> usize
        ensures { result ≡ length ((kept_in D.told self.now).queues class).waiting }
    {
        self.classes.waiting(class)
    }

    /// The first request that waits for a class.
    pub fn first(&self, class: u32) -> Option<&Request>
        ensures { option_copied result ≡ slice_get ((kept_in D.told self.now).queues class).waiting 0 }
    {
        self.classes.first(class)
    }

    /// What a process works on.
    pub fn request(&self, class: u32, process: u32) -> Option<&Request>
        ensures { option_copied result ≡ at_process ((kept_in D.told self.now).queues class) process }
    {
        self.classes.request_at(class, process)
    }

    /// What a process works with.
    pub fn job(&self, class: u32, process: u32) -> Option<&ProcessJob>
        requires class { class < length self.now.system.classes }
        requires process { 1 ≤ process }
        ensures exact { option_copied result ≡ job_of (jobs_at self.now.jobs class) process }
        ensures context { context_of (option_copied result) ≡ (kept_in D.told self.now).jobs class process }
        ensures verb { JobHasVerb self.now.system (option_copied result) }
    {
        self.jobs[class as usize].get(process as usize - 1)
    }

    /// A pair, which has a seat for each of its terminals.
    pub fn pair(&self, tcp: u32) -> &Pair
        requires { tcp < length self.now.system.tcps }
        ensures pair { result.now ≡ (kept_in D.told self.now).pairs tcp }
        ensures members { AreOf self.now.system tcp (terminals_in result.now) }
    {
        &self.pairs[tcp as usize]
    }

    /// What the disc would answer a file operation of a unit now, without doing it.
    pub fn foresee(&self, unit: &Unit, call: &FileCall) -> Result<Foreseen, Memory>
        requires unit { IsRunning (kept_in D.told self.now).disc unit.now }
        requires call { IsCall (kept_in D.told self.now).disc call.now }
        ensures { IfOk result (λ foreseen. Foresees foreseen (kept_in D.told self.now).disc unit.now call.now) }
    {
        self.disc.foresee(unit, call)
    }

    /// Whether the lock that a file operation would take for a unit now conflicts with a lock of another one.
    pub fn awaits(&self, unit: &Unit, call: &FileCall, holder: &Unit) -> Result<bool, Memory>
        requires unit { IsOpen (kept_in D.told self.now).disc unit.now }
        requires call { IsCall (kept_in D.told self.now).disc call.now }
        requires holder { IsOpen (kept_in D.told self.now).disc holder.now }
        requires apart { unit.now.terminal ≢ holder.now.terminal }
        ensures { IfOk result (λ meets. meets
            ≡ awaits (kept_in D.told self.now).disc unit.now call.now holder.now) }
    {
        self.disc.awaits(unit, call, holder)
    }
}
