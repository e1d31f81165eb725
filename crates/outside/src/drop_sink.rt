//! A sink that drops all that is written.

ghost use Rattle.std.specs.Prelude.{◌≡◌, None, length};

use crate::{Failed, Sink};

/// A sink that takes every byte and keeps none. It never fails.
#[derive(Clone, Copy, Debug, PartialEq, Eq, Drop)]
pub struct DropSink;

impl Sink for DropSink {
    ghost has = { λ _. None };

    ghost faults = { λ _. 0 };

    fn faults(&self) -> u64 {
        0
    }

    fn write(&mut self, piece: &[u8]) -> Result<usize, Failed>
        ensures all { result ≡ Ok (length piece.now) }
    {
        Ok(piece.len())
    }
}
