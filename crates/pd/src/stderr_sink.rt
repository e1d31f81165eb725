//! Standard error as a sink.

ghost use Rattle.std.specs.Prelude.{◌≡◌, ◌<◌, None, length};
ghost use Rattle.std.specs.Io.{WritesAtMost};
ghost use Rattle.outside.specs.Causes.{HasCause};
ghost use Rattle.outside.specs.Outside.{count_after_writing};

use outside::{Failed, Sink};
use std::io::Write;

/// Standard error, which tells nothing of what it has.
#[derive(Drop)]
pub struct StderrSink {
    rt: HostRuntime,
    faults: u64,
}

impl StderrSink {
    /// Returns a sink that has not failed yet. This writes nothing.
    pub fn new(rt: HostRuntime) -> StderrSink {
        StderrSink { rt, faults: 0 }
    }
}

impl Sink for StderrSink {
    ghost has = { λ _. None };

    ghost faults = { λ sink. sink.faults };

    fn faults(&self) -> u64 {
        self.faults
    }

    fn write(&mut self, piece: &[u8]) -> Result<usize, Failed>
        ensures bound { WritesAtMost result piece.now }
        ensures cause { HasCause self.old.faults self.new.faults result }
        ensures counted { self.new.faults ≡ count_after_writing self.old.faults result }
    {
        match self.rt.stderr().write(piece) {
            Ok(count) if count > 0 => Ok(count),
            Ok(_) | Err(_) => {
                self.faults = self.faults.saturating_add(1);
                Err(Failed)
            }
        }
    }
}
