//! Where the texts go that were asked for.

ghost use Rattle.std.specs.Prelude.{◌≡◌, ◌<◌, None, length};
ghost use Rattle.std.specs.Io.{WritesAtMost};
ghost use Rattle.outside.specs.Causes.{HasCause};
ghost use Rattle.outside.specs.Outside.{count_after_writing};

use outside::{Failed, FileSink, Sink};
use std::io;
use std::io::Write;

/// A place to which a text goes.
#[derive(Drop)]
pub enum Place {
    /// Standard output.
    Screen,
    /// A file.
    File(FileSink<HostRuntime>),
    /// None: what is written is dropped.
    Nowhere,
}

/// A place as a sink, which tells nothing of what it has.
#[derive(Drop)]
pub struct TextSink {
    rt: HostRuntime,
    place: Place,
    faults: u64,
    // Whether a writing failed since nobody reads the pipe any more.
    is_closed: bool,
}

// Writes to standard output, and notes whether that failed since nobody reads it any more.
fn print(rt: &HostRuntime, is_closed: &mut bool, piece: &[u8]) -> Result<usize, Failed>
    ensures { WritesAtMost result piece.now }
{
    match rt.stdout().write(piece) {
        Ok(count) => Ok(count),
        Err(fault) => {
            *is_closed = fault.kind() == io::ErrorKind::BrokenPipe;
            Err(Failed)
        }
    }
}

impl TextSink {
    /// Returns a sink that has not failed yet. This writes nothing.
    pub fn new(rt: HostRuntime, place: Place) -> TextSink {
        TextSink {
            rt,
            place,
            faults: 0,
            is_closed: false,
        }
    }

    /// Returns whether a writing failed because nobody reads the pipe any more, as after `| head`.
    pub fn is_closed(&self) -> bool {
        self.is_closed
    }

    // Writes to the place.
    fn put(&mut self, piece: &[u8]) -> Result<usize, Failed>
        ensures bound { WritesAtMost result piece.now }
        ensures count { self.new.faults ≡ self.old.faults }
    {
        match &mut self.place {
            Place::Screen => print(&self.rt, &mut self.is_closed, piece),
            Place::File(file) => file.write(piece),
            Place::Nowhere => Ok(piece.len()),
        }
    }
}

impl Sink for TextSink {
    ghost has = { λ _. None };

    ghost faults = { λ sink. sink.faults };

    fn faults(&self) -> u64 {
        self.faults
    }

    fn write(&mut self, piece: &[u8]) -> Result<usize, Failed>
        ensures bound { WritesAtMost result piece.now }
        ensures cause { HasCause self.old.faults self.new.faults result }
        ensures counted { self.new.faults ≡ count_after_writing self.old.faults result }
    {
        match self.put(piece) {
            Ok(count) if count > 0 => Ok(count),
            Ok(_) | Err(_) => {
                self.faults = self.faults.saturating_add(1);
                Err(Failed)
            }
        }
    }
}
