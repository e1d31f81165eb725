//! A gate at which two workers meet.

use headline::Progress;
use outside::Gate;
use session::Session;
use std::sync::atomic::{AtomicBool, Ordering};
use std::thread;

/// How often a worker looks whether the other has come.
const POLLS: u32 = 10_000_000;

/// A gate at which the workers 0 and 1 meet before their second quantum, or under `visi` the run before its second quantum and a
/// view after its second sample: each waits for the other, but only for a bounded number of looks.
#[derive(Drop)]
pub struct Meeting {
    came: [AtomicBool; 2],
    missed: AtomicBool,
}

impl Meeting {
    /// Makes a gate to which no worker has come yet.
    pub fn new() -> Meeting {
        Meeting {
            came: [AtomicBool::new(false), AtomicBool::new(false)],
            missed: AtomicBool::new(false),
        }
    }

    /// Returns whether both workers came, and neither gave up waiting.
    pub fn met(&self) -> bool {
        let [first, second] = &self.came;
        first.load(Ordering::SeqCst)
            && second.load(Ordering::SeqCst)
            && !self.missed.load(Ordering::SeqCst)
    }
}

impl Gate for Meeting {
    fn pass(&self, worker: u32, n: u64) {
        if n != 1 {
            return;
        }
        let [first, second] = &self.came;
        let (own, other) = if worker == 0 {
            (first, second)
        } else {
            (second, first)
        };
        own.store(true, Ordering::SeqCst);
        for _ in 0..POLLS {
            if other.load(Ordering::SeqCst) {
                return;
            }
            thread::yield_now();
        }
        self.missed.store(true, Ordering::SeqCst);
    }
}

impl Progress for Meeting {
    fn see(&self, _session: &Session) {}
}
