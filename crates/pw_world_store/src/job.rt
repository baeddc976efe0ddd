ghost use Rattle.std.specs.Prelude.{◌≡◌, ◌<◌, length, map, position, slice_set, IfOk, None, is_none, replicate};
ghost use Rattle.std.specs.Option.{option_copied};
ghost use Rattle.pw_world_store.specs.Jobs.{dropped_for, gone_on, is_for, job_in};

use pw_base::memory::Memory;
use pw_code::context::Context;
use pw_code::verb::Verb;
use std::alloc::Global;
use std::marker::Model;

/// What a process works with.
#[derive(Drop)]
pub struct ProcessJob {
    /// The terminal for which it works.
    pub terminal: u32,
    /// The context of its server, at an answer or at its next verb.
    pub context: Context,
    /// Its next verb, where the context stands at it.
    pub verb: Option<Verb>,
}

/// The jobs of a class's processes. Contracts see for each process its job, if it has one.
#[derive(Drop)]
pub struct Jobs {
    jobs: Vec<Option<ProcessJob>>,
}

impl Model for Jobs {
    ghost use Rattle.std.specs.Prelude.{List, Option};
    ghost use Rattle.pw_world_store.specs.declared.job.ProcessJob.{ProcessJob as SeenJob};

    ghost Value = { List (Option SeenJob) };

    ghost view = { λ jobs. jobs.jobs.items };

    ghost invariant = { λ jobs. Unit {0} };
}

impl Jobs {
    /// So many processes that are free.
    pub fn new(alloc: Global, processes: u32) -> Result<Jobs, Memory>
        ensures { IfOk result (λ jobs. jobs ≡ replicate processes None) }
    {
        let mut jobs = Vec::new(alloc);
        for _ in 0..processes {
            jobs.push(None)?;
        }
        Ok(Jobs { jobs })
    }

    /// The job at a place, None where there is none.
    pub fn get(&self, place: usize) -> Option<&ProcessJob>
        ensures { option_copied result ≡ job_in self.now place }
    {
        let job = self.jobs.get(place)?;
        job.as_ref()
    }

    /// The first place without a job, None exactly where each has one.
    pub fn free_place(&self) -> Option<usize>
        ensures { result ≡ position is_none self.now }
    {
        self.jobs.iter().position(|job| job.is_none())
    }

    /// Takes the job at a place, and puts another one, if any, there.
    pub fn put(&mut self, place: usize, job: Option<ProcessJob>)
        requires { place < length self.old }
        ensures { self.new ≡ slice_set self.old place job }
    {
        self.jobs[place] = job;
    }

    /// The job at a place, if there is one, goes on with this context, and this verb where the
    /// context stands at it.
    pub fn go_on(&mut self, place: usize, context: Context, verb: Option<Verb>)
        requires { place < length self.old }
        ensures { self.new ≡ slice_set self.old place (gone_on verb context (job_in self.old place)) }
    {
        if let Some(job) = &mut self.jobs[place] {
            job.context = context;
            job.verb = verb;
        }
    }

    /// Drops the jobs for a terminal.
    pub fn drop_for(&mut self, terminal: u32)
        ensures { self.new ≡ map (dropped_for terminal) self.old }
    {
        for job in self.jobs.iter_mut() {
            drop_one(job, terminal);
        }
    }
}

/// Whether there is a job, and it is for the terminal.
fn is_for(job: &Option<ProcessJob>, terminal: u32) -> bool
    ensures { result ≡ is_for terminal job.now }
{
    match job {
        Some(job) => job.terminal == terminal,
        None => false,
    }
}

/// Drops a job for the terminal.
fn drop_one(job: &mut Option<ProcessJob>, terminal: u32)
    ensures { job.new ≡ dropped_for terminal job.old }
{
    if is_for(job, terminal) {
        *job = None;
    }
}
