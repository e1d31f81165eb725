//! A sink in memory whose writings never fail while there is room.

ghost use Rattle.std.specs.Prelude.{◌≡◌, ◌<◌, ◌≤◌, ◌↔◌, ◌-◌, [], IfOk, IsErr, Some, length, min};
ghost use Rattle.outside.specs.Causes.{HasCause};
ghost use Rattle.outside.specs.SinkState.{after_sure_writing};

use crate::steps::count_up;
use crate::{Failed, Sink};
use std::alloc::{AllocError, Global};
use std::marker::Model;

/// A sink in memory that takes all that it has room for, and fails only where no room is left.
///
/// It takes its room when it is made.
#[derive(Drop)]
pub struct SureSink {
    bytes: Vec<u8>,
    room: usize,
    faults: u64,
}

impl Model for SureSink {
    ghost use Rattle.std.specs.Prelude.{◌≡◌, ◌<◌, ◌≤◌, vec_len, vec_capacity};
    ghost use Rattle.outside.specs.SinkState.{SureSinkState};

    ghost Value = { SureSinkState };

    ghost view = { λ sink.
        record { bytes = sink.bytes.items; room = sink.room; faults = sink.faults } };

    // Its room was taken, and holds its bytes; it has no fault while some room is left.
    ghost invariant = { λ sink.
        (sink.room ≤ vec_capacity sink.bytes) × (vec_len sink.bytes ≤ sink.room)
        × (vec_len sink.bytes < sink.room → sink.faults ≡ 0) };
}

impl SureSink {
    /// Returns an empty sink with room for `room` bytes.
    ///
    /// # Errors
    ///
    /// `AllocError` where memory for the room runs out.
    pub fn new(alloc: Global, room: u64) -> Result<Self, AllocError>
        ensures { IfOk result (λ sink. sink ≡ record { bytes = []; room = room; faults = 0 }) }
    {
        Ok(SureSink {
            bytes: Vec::with_capacity(alloc, room as usize)?,
            room: room as usize,
            faults: 0,
        })
    }

    /// Returns the bytes that it has, in the order in which they were written.
    pub fn bytes(&self) -> &[u8]
        ensures { result.now ≡ self.now.bytes }
    {
        &self.bytes
    }
}

impl Sink for SureSink {
    ghost has = { λ sink. Some sink.bytes };

    ghost faults = { λ sink. sink.faults };

    fn faults(&self) -> u64
        ensures count { result ≡ self.now.faults }
        ensures sure { length self.now.bytes < self.now.room → result ≡ 0 }
    {
        self.faults
    }

    fn write(&mut self, piece: &[u8]) -> Result<usize, Failed>
        requires { 0 < length piece.now }
        ensures cause { HasCause self.old.faults self.new.faults result }
        ensures fails { IsErr result ↔ (self.old.room ≤ length self.old.bytes) }
        ensures taken { IfOk result (λ n.
            n ≡ min (length piece.now) (self.old.room - length self.old.bytes)) }
        ensures after { self.new ≡ after_sure_writing self.old piece.now result }
    {
        let left = self.room - self.bytes.len();
        let count = piece.len().min(left);
        // The room was taken before, so that there is memory here.
        if count == 0 || self.bytes.extend_from_slice(&piece[..count]).is_err() {
            count_up(&mut self.faults);
            return Err(Failed);
        }
        Ok(count)
    }
}
