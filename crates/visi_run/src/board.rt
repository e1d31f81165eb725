//! What a run shows its views.

ghost use Rattle.std.specs.Prelude.{◌≡◌, length, IfOk};

use crate::dial::Gauge;
use crossbeam_utils::sync::{Parker, Unparker};
use pn_types::NoMemory;
use std::alloc::Global;
use std::sync::atomic::{AtomicBool, Ordering};

/// What a run shows its views: how far it is, and that there may be something new to take.
#[derive(Drop)]
pub struct Board {
    /// How far the run is.
    pub gauge: Gauge,
    // Those that wake the views.
    wakers: Vec<Unparker>,
    // Whether the run has ended, successfully or not.
    over: AtomicBool,
}

impl Board {
    /// Makes the board of a run with this gauge and `views` views, and what each view sleeps by.
    ///
    /// # Errors
    ///
    /// `NoMemory` where memory runs out.
    pub fn new(alloc: Global, gauge: Gauge, views: u32) -> Result<(Board, Vec<Parker>), NoMemory>
        ensures gauge { IfOk result (λ r. r.0.gauge ≡ gauge) }
        ensures count { IfOk result (λ r. length r.1.items ≡ views) }
    {
        let mut wakers = Vec::new(alloc);
        let mut parkers = Vec::new(alloc);
        for _view in 0..views {
            let parker = Parker::new(alloc)?;
            wakers.push(parker.unparker().clone()?)?;
            parkers.push(parker)?;
        }
        let board = Board {
            gauge,
            wakers,
            over: AtomicBool::new(false),
        };
        Ok((board, parkers))
    }

    /// Wakes all views.
    pub fn wake(&self) {
        for waker in &self.wakers {
            waker.unpark();
        }
    }

    /// Notes that the run has ended, successfully or not, and wakes all views.
    pub fn end(&self) {
        self.over.store(true, Ordering::SeqCst);
        self.wake();
    }

    /// Returns whether the run has ended, successfully or not.
    pub fn is_over(&self) -> bool {
        self.over.load(Ordering::SeqCst)
    }
}
