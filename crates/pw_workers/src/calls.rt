//! When a worker that waits is called.

ghost use Rattle.std.specs.Prelude.{◌≡◌, ◌↔◌, IsTrue};
ghost use Rattle.pw_workers.specs.Calls.{AreTasksSmall, IsCallWorth, called, come, no_calls, ran, waited};

/// A task of so many statements takes longer than to wake a worker and to claim another task for it.
const WORTH: u32 = 4_000;

/// A task of fewer statements takes less than to hand the lock on.
const SMALL: u32 = 1_000;

/// What tasks are taken for before one was run, so that at first all are called.
const FIRST: u32 = 1_000_000;

/// Who is called of the workers that wait.
#[derive(Clone, Copy, Debug, PartialEq, Eq)]
pub enum WorkerCall {
    Nobody,
    One,
    All,
}

/// How many workers wait, and how large tasks are. A call costs a look at every actor and a thread that wakes, so it is
/// made only where a task is worth that: where what is done under the lock is most of the work, one worker does it
/// alone. It has no meaning.
#[derive(Clone, Copy, Debug, PartialEq, Eq)]
pub struct WorkerCalls {
    /// How many workers wait.
    pub(crate) waiting: u8,
    /// Whether one is called that has not come yet.
    pub(crate) is_open: bool,
    /// How many statements a task has lately.
    pub(crate) size: u32,
}

impl WorkerCalls {
    /// No worker waits, and no task was run.
    pub const fn new() -> WorkerCalls
        ensures { result ≡ no_calls }
    {
        WorkerCalls {
            waiting: 0,
            is_open: false,
            size: FIRST,
        }
    }

    /// Whether one is called that has not come yet.
    pub fn is_open(&self) -> bool
        ensures { result ≡ self.now.is_open }
    {
        self.is_open
    }

    /// A task of so many statements was run. A large one counts at once, and is forgotten bit by bit.
    pub fn ran(&mut self, statements: u32)
        ensures { self.new ≡ ran statements self.old }
    {
        self.size = statements.max(self.size - self.size / 64);
    }

    /// Whether another is called where there is more to do.
    pub fn is_worth(&self) -> bool
        ensures { IsTrue result ↔ IsCallWorth self.now }
    {
        self.waiting > 0 && !self.is_open && self.size >= WORTH
    }

    /// Whether tasks are so small that to hand the lock on costs more than to run one.
    pub fn are_tasks_small(&self) -> bool
        ensures { IsTrue result ↔ AreTasksSmall self.now }
    {
        self.size < SMALL
    }

    /// One of those that wait is called.
    pub fn call(&mut self)
        ensures { self.new ≡ called self.old }
    {
        self.is_open = true;
    }

    /// A worker begins to wait.
    pub fn wait(&mut self)
        ensures { self.new ≡ waited self.old }
    {
        self.waiting = self.waiting.saturating_add(1);
    }

    /// A worker that waited comes, since it was called or the run has ended.
    pub fn come(&mut self)
        ensures { self.new ≡ come self.old }
    {
        self.waiting = self.waiting.saturating_sub(1);
        self.is_open = false;
    }
}
