//! Says how far a run is.

use headline::Progress;
use outside::Gate;
use session::Session;
use std::sync::atomic::{AtomicU64, Ordering};
use std::time::Instant;

/// How many ticks of the program go by between two looks at the clock.
const TICKS_PER_LOOK: u64 = 200_000;

/// Somebody who says on a terminal, once a second, how far a run is that takes longer than one. No worker waits for it.
#[derive(Drop)]
pub struct Ticker {
    rt: HostRuntime,
    // When it was made; none where nothing is to be said.
    start: Option<Instant>,
    // From which tick on the clock is looked at.
    next: AtomicU64,
    // The last second that was told.
    told: AtomicU64,
}

impl Ticker {
    /// Makes one that speaks or is silent.
    pub fn new(rt: HostRuntime, speaks: bool) -> Ticker {
        let start = if speaks { Instant::now(&rt).ok() } else { None };
        Ticker {
            rt,
            start,
            next: AtomicU64::new(TICKS_PER_LOOK),
            told: AtomicU64::new(0),
        }
    }

    /// Says how far a session is after these seconds.
    fn say(&self, seconds: u64, session: &Session) {
        let ticks = session.time();
        let samples = session.samples();
        let nodes = session.nodes().len();
        // Nothing depends on whether this is read.
        let _ = eprintln!(self.rt;
            "pd: {seconds} s, {ticks} ticks, {samples} samples, {nodes} nodes"
        );
    }
}

impl Gate for Ticker {
    fn pass(&self, _worker: u32, _n: u64) {}
}

impl Progress for Ticker {
    fn see(&self, session: &Session) {
        let Some(start) = &self.start else {
            return;
        };
        let ticks = session.time();
        if ticks < self.next.load(Ordering::SeqCst) {
            return;
        }
        self.next
            .store(ticks.saturating_add(TICKS_PER_LOOK), Ordering::SeqCst);
        let Ok(elapsed) = start.elapsed(&self.rt) else {
            return;
        };
        let seconds = elapsed.as_secs();
        if seconds > self.told.load(Ordering::SeqCst) {
            self.told.store(seconds, Ordering::SeqCst);
            self.say(seconds, session);
        }
    }
}
