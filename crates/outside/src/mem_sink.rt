//! A sink in memory whose writings can fail, or take fewer bytes than are offered.

ghost use Rattle.std.specs.Prelude.{◌≡◌, ◌<◌, ◌↔◌, IfOk, IsErr, IsTrue, Some, length, min};
ghost use Rattle.outside.specs.Causes.{HasCause};
ghost use Rattle.outside.specs.SinkState.{RefusesNext, after_writing, new_sink, room_left};

use crate::steps::{count_up, is_to_fail};
use crate::{Failed, Sink};
use std::alloc::{AllocError, Global};
use std::marker::Model;

/// A sink in memory that fails at chosen calls, and takes a limited number of bytes at each call.
///
/// It takes its room when it is made, and a call that finds no room fails.
#[derive(Drop)]
pub struct MemSink {
    bytes: Vec<u8>,
    room: usize,
    // The most bytes of one call.
    piece: usize,
    // The numbers of the calls that are to fail.
    fails: Vec<u64>,
    calls: u64,
    faults: u64,
}

impl Model for MemSink {
    ghost use Rattle.std.specs.Prelude.{◌≤◌, vec_len, vec_capacity};
    ghost use Rattle.outside.specs.SinkState.{MemSinkState};

    ghost Value = { MemSinkState };

    ghost view = { λ sink. record {
      bytes = sink.bytes.items;
      room = sink.room;
      piece = sink.piece;
      fails = sink.fails.items;
      calls = sink.calls;
      faults = sink.faults;
    } };

    // Its room was taken, and holds its bytes.
    ghost invariant = { λ sink.
        (sink.room ≤ vec_capacity sink.bytes) × (vec_len sink.bytes ≤ sink.room) };
}

impl MemSink {
    /// Returns an empty sink with room for `room` bytes, which takes at most `piece` bytes at each call. The calls are
    /// numbered from 0, and those whose numbers stand in `fails` fail.
    ///
    /// # Errors
    ///
    /// `AllocError` where memory for the room runs out.
    pub fn new(alloc: Global, room: u64, piece: u64, fails: Vec<u64>) -> Result<Self, AllocError>
        ensures { IfOk result (λ sink. sink ≡ new_sink room piece fails.items) }
    {
        Ok(MemSink {
            bytes: Vec::with_capacity(alloc, room as usize)?,
            room: room as usize,
            piece: piece as usize,
            fails,
            calls: 0,
            faults: 0,
        })
    }

    /// Returns the bytes that it has, in the order in which they were written.
    pub fn bytes(&self) -> &[u8]
        ensures { result.now ≡ self.now.bytes }
    {
        &self.bytes
    }

    // Whether the next call fails: no room is left, or it is told to fail.
    fn refuses_next(&self) -> bool
        ensures { IsTrue result ↔ RefusesNext self.now }
    {
        self.bytes.len() == self.room || is_to_fail(&self.fails, self.calls)
    }
}

impl Sink for MemSink {
    ghost has = { λ sink. Some sink.bytes };

    ghost faults = { λ sink. sink.faults };

    fn faults(&self) -> u64 {
        self.faults
    }

    fn write(&mut self, piece: &[u8]) -> Result<usize, Failed>
        requires { 0 < length piece.now }
        ensures cause { HasCause self.old.faults self.new.faults result }
        ensures fails { IsErr result ↔ RefusesNext self.old }
        ensures taken { IfOk result (λ n.
            n ≡ min (length piece.now) (min self.old.piece (room_left self.old))) }
        ensures after { self.new ≡ after_writing self.old piece.now result }
    {
        let refused = self.refuses_next();
        count_up(&mut self.calls);
        let left = self.room - self.bytes.len();
        let count = piece.len().min(self.piece.min(left));
        // The room was taken before, so that there is memory here.
        if refused || self.bytes.extend_from_slice(&piece[..count]).is_err() {
            count_up(&mut self.faults);
            return Err(Failed);
        }
        if count == 0 {
            count_up(&mut self.faults);
        }
        Ok(count)
    }
}
