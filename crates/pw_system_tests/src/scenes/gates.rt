//! A gate that holds a worker for another terminal.

use pw_actor_queue::actor::Actor;
use pw_workers::gate::{Gate, Step};
use std::sync::atomic::{AtomicBool, AtomicU64, Ordering};
use std::thread;

/// How many turns a worker is held at most.
const TURNS: u32 = 1_000_000;

/// The first pass of a terminal is held until a pass of another terminal comes; all others go through.
#[derive(Debug, Drop)]
pub struct OtherComes {
    /// The terminal that is held, counted from 1, or 0.
    held: AtomicU64,
    /// Whether another terminal has come.
    came: AtomicBool,
    /// Whether the terminal that was held was let go since another came.
    let_go: AtomicBool,
}

impl OtherComes {
    /// A gate that no terminal has passed.
    pub fn new() -> OtherComes {
        OtherComes {
            held: AtomicU64::new(0),
            came: AtomicBool::new(false),
            let_go: AtomicBool::new(false),
        }
    }

    /// Whether a terminal was held, and let go at a pass of another.
    pub fn has_let_go(&self) -> bool {
        self.let_go.load(Ordering::SeqCst)
    }

    /// Waits until another terminal has come, for so many turns at most.
    fn hold(&self) {
        for _ in 0..TURNS {
            if self.came.load(Ordering::SeqCst) {
                self.let_go.store(true, Ordering::SeqCst);
                return;
            }
            thread::yield_now();
        }
    }
}

impl Gate for OtherComes {
    fn pass(&self, step: Step) {
        let Actor::Terminal(terminal) = step.actor else {
            return;
        };
        let own = u64::from(terminal) + 1;
        match self
            .held
            .compare_exchange(0, own, Ordering::SeqCst, Ordering::SeqCst)
        {
            Ok(_) => self.hold(),
            Err(held) if held != own => self.came.store(true, Ordering::SeqCst),
            Err(_) => {}
        }
    }
}
