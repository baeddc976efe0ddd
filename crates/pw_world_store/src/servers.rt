//! What entries do to requests and the processes of classes.

ghost use Rattle.std.specs.Prelude.{◌≡◌, ◌<◌, ℕ, IsSome, OnErr, OnOk, Some, false, length, true};
ghost use Rattle.pw_class.specs.Queue.{at_process, has_request};
ghost use Rattle.pw_class.specs.declared.request.Request.{Request as SeenRequest};
ghost use Rattle.pw_world_store.specs.Calls.{IsOperated, MayOperate, can_take, cancel_of, taker};
ghost use Rattle.pw_world_store.specs.Keeps.{IsChanged, job_of, jobs_at, kept_in, request_terminal};
ghost use Rattle.pw_world_state.specs.Asked.{verb_in};
ghost use Rattle.pw_world_state.specs.Changes.{cancel, free_process, kept_fail_server, kept_send, kept_take, unit_at, with_job};
ghost use Rattle.pw_world_store.specs.Jobs.{gone_on};

use crate::job::ProcessJob;
use crate::keep::Keep;
use crate::pieces::{call_of, drop_jobs};
use pw_base::bytes::Bytes;
use pw_base::memory::Memory;
use pw_class::request::{Request, Taken};
use pw_code::context::Context;
use pw_code::unit::Unit;
use pw_code::verb::Verb;
use pw_event::event::Cause;
use pw_tmf::answer::FileAnswer;
use pw_tmf::disc::Disc;

impl<D: Disc> Keep<D> {
    /// SEND: the request waits behind the others of the class.
    pub fn send(
        &mut self,
        terminal: u32,
        number: u32,
        class: u32,
        message: Bytes,
    ) -> Result<(), Memory>
        requires class { class < length self.old.system.classes }
        requires alone { (c : ℕ) → has_request terminal ((kept_in D.told self.old).queues c) ≡ false }
        ensures ok { OnOk result (IsChanged D.told (kept_send terminal number class message) self.old self.new) }
        ensures err { OnErr result (self.new ≡ self.old) }
    {
        let request = Request {
            terminal,
            unit: number,
            message,
        };
        self.classes.put(class, request)?;
        Ok(())
    }

    /// TAKE: the free process of smallest number works on the first waiting request, with this
    /// context.
    pub fn take(&mut self, class: u32, context: Context)
        requires class { class < length self.old.system.classes }
        requires ready { can_take ((kept_in D.told self.old).queues class) ≡ true }
        requires fresh { context.at_verb ≡ false }
        ensures { IsChanged D.told (kept_take class (taker ((kept_in D.told self.old).queues class)) context) self.old self.new }
    {
        if let Taken::Got { process, request } = self.classes.take(class) {
            let job = ProcessJob {
                terminal: request.terminal,
                context,
                verb: None,
            };
            self.jobs[class as usize].put(process as usize - 1, Some(job));
        }
    }

    /// No entry: the program of a busy process has run on to its next verb.
    pub fn run_job_on(&mut self, class: u32, process: u32, verb: Verb, context: Context)
        requires class { class < length self.old.system.classes }
        requires busy { IsSome (at_process ((kept_in D.told self.old).queues class) process) }
        requires verb { verb ≡ verb_in self.old.system context }
        requires stands { context.at_verb ≡ true }
        ensures kept { IsChanged D.told (with_job class process (Some context)) self.old self.new }
        ensures job { job_of (jobs_at self.new.jobs class) process
            ≡ gone_on (Some verb) context (job_of (jobs_at self.old.jobs class) process) }
    {
        self.jobs[class as usize].go_on(process as usize - 1, context, Some(verb));
    }

    /// The unit for which a busy process works.
    fn unit_for(&self, class: u32, process: u32) -> Unit
        requires { MayOperate D.told self.now class process }
        ensures { (may : MayOperate D.told self.now class process)
            → result ≡ unit_at (kept_in D.told self.now) may.request.terminal may.request.unit }
    {
        match self.classes.request_at(class, process) {
            Some(request) => self.unit_at(request.terminal, request.unit),
            None => unreachable!(),
        }
    }

    /// FILE: does the operation at which a busy process stands, under its lock.
    pub fn operate(&mut self, class: u32, process: u32) -> FileAnswer
        requires { MayOperate D.told self.old class process }
        ensures { (may : MayOperate D.told self.old class process)
            → IsOperated D.told self.old class process may result self.new }
    {
        let unit = self.unit_for(class, process);
        match call_of(self.jobs[class as usize].get(process as usize - 1)) {
            Some(call) => self.disc.operate(&unit, call),
            None => unreachable!(),
        }
    }

    /// FILE, behind `operate`: the program of a busy process goes on with a context behind its
    /// answer.
    pub fn answer_job(&mut self, class: u32, process: u32, context: Context)
        requires class { class < length self.old.system.classes }
        requires busy { IsSome (at_process ((kept_in D.told self.old).queues class) process) }
        requires answered { context.at_verb ≡ false }
        ensures { IsChanged D.told (with_job class process (Some context)) self.old self.new }
    {
        self.jobs[class as usize].go_on(process as usize - 1, context, None);
    }

    /// REPLY: a busy process is free.
    pub fn free(&mut self, class: u32, process: u32)
        requires class { class < length self.old.system.classes }
        requires busy { IsSome (at_process ((kept_in D.told self.old).queues class) process) }
        ensures { IsChanged D.told (free_process class process) self.old self.new }
    {
        self.classes.reply(class, process);
        self.jobs[class as usize].put(process as usize - 1, None);
    }

    /// The terminal of the request at a process, if it is busy.
    fn terminal_at(&self, class: u32, process: u32) -> Option<u32>
        ensures { result
            ≡ request_terminal (at_process ((kept_in D.told self.now).queues class) process) }
    {
        let request = self.classes.request_at(class, process)?;
        Some(request.terminal)
    }

    /// FAIL SERVER: a process stops with what it works on, and the cause is pending for the terminal
    /// of its request.
    pub fn fail_server(&mut self, class: u32, process: u32, line: u32)
        requires class { class < length self.old.system.classes }
        requires known { (request : SeenRequest)
            → at_process ((kept_in D.told self.old).queues class) process ≡ Some request
            → request.terminal < length self.old.system.terminals }
        ensures { IsChanged D.told (kept_fail_server class process line) self.old self.new }
    {
        if let Some(terminal) = self.terminal_at(class, process) {
            self.free(class, process);
            self.pend(terminal, Cause::Server(line));
        }
    }

    /// The requests of a terminal are cancelled.
    pub(crate) fn cancel_one(&mut self, terminal: u32)
        ensures { IsChanged D.told (cancel_of terminal) self.old self.new }
    {
        self.classes.cancel(terminal);
        drop_jobs(&mut self.jobs, terminal);
    }

    /// The requests of these terminals are cancelled.
    pub(crate) fn cancel(&mut self, terminals: &[u32])
        ensures { IsChanged D.told (cancel terminals.now) self.old self.new }
    {
        for terminal in terminals {
            self.cancel_one(*terminal);
        }
    }
}
