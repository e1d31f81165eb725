//! A gate that counts the passes of two workers.

use headline::Progress;
use outside::Gate;
use pn_types::Quantum;
use session::Session;
use std::sync::atomic::{AtomicBool, AtomicU64, Ordering};

/// A gate that counts how often each of the workers 0 and 1 passes it.
#[derive(Drop)]
pub struct Tally {
    passes: [AtomicU64; 2],
    // Whether a worker passed with another number than how often it had passed before, or was none of the two.
    wrong: AtomicBool,
}

impl Tally {
    /// Makes a gate that no worker has passed yet.
    pub fn new() -> Tally {
        Tally {
            passes: [AtomicU64::new(0), AtomicU64::new(0)],
            wrong: AtomicBool::new(false),
        }
    }

    /// Returns whether each worker passed with the numbers 0, 1, 2 and so on: once for each of its quanta, and once for each of its
    /// harts, which it left then. The harts are dealt by their numbers.
    pub fn is_of(&self, quanta: &[Quantum], harts: u32) -> bool {
        let [first, second] = &self.passes;
        !self.wrong.load(Ordering::SeqCst)
            && first.load(Ordering::SeqCst) == passes_of(0, quanta, harts)
            && second.load(Ordering::SeqCst) == passes_of(1, quanta, harts)
    }
}

/// Returns how often a worker of two passes the gate.
fn passes_of(worker: u32, quanta: &[Quantum], harts: u32) -> u64 {
    let taken = quanta
        .iter()
        .filter(|quantum| quantum.worker as u32 == worker)
        .count();
    let own = (0..harts).filter(|hart| hart % 2 == worker).count();
    (taken as u64).saturating_add(own as u64)
}

impl Gate for Tally {
    fn pass(&self, worker: u32, n: u64) {
        let [first, second] = &self.passes;
        let passes = match worker {
            0 => first,
            1 => second,
            _ => {
                self.wrong.store(true, Ordering::SeqCst);
                return;
            }
        };
        if passes.fetch_add(1, Ordering::SeqCst) != n {
            self.wrong.store(true, Ordering::SeqCst);
        }
    }
}

impl Progress for Tally {
    fn see(&self, _session: &Session) {}
}
