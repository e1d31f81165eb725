//! The outside of the running system: its files, standard output, and a file that is written from its beginning.
ghost use Rattle.std.specs.Prelude.{◌≡◌, ◌≤◌, None, IsErr, MatchResult};
ghost use Rattle.std.specs.Io.{ReadsAtMost, WritesAtMost};
ghost use Rattle.outside.specs.Causes.{HasCause};
ghost use Rattle.outside.specs.Outside.{count_after_reading, count_after_writing};

use crate::steps::count_up;
use crate::{Failed, Files, Sink};
use std::io::{Read, Seek, SeekFrom, Write};
use std::marker::Model;
use std::{fs, io, rt};

/// The files of the system. Each reading opens the name anew, and tells nothing of what the file holds.
///
/// Its one count of faults is the count of every name.
#[derive(Drop)]
pub struct OsFiles<R: rt::Files> {
    rt: R,
    faults: u64,
}

impl<R: rt::Files> Model for OsFiles<R> {
    ghost use Rattle.std.specs.Prelude.{ℕ};

    ghost Value = { ℕ };

    ghost view = { λ files. files.faults };
}

impl<R: rt::Files + Drop> OsFiles<R> {
    /// Returns files that have not failed yet. This opens none.
    pub fn new(rt: R) -> Self
        ensures { result ≡ 0 }
    {
        OsFiles { rt, faults: 0 }
    }
}

// Opens a file, goes to a place in it, and reads there.
fn read_once<R: rt::Files>(rt: &R, name: &str, at: u64, buf: &mut [u8]) -> io::Result<usize>
    ensures { ReadsAtMost result buf.new }
{
    let mut file = fs::open(rt, name)?;
    file.seek(SeekFrom::Start(at))?;
    file.read(buf)
}

impl<R: rt::Files + Drop> Files for OsFiles<R> {
    ghost holds = { λ _ _. None };

    ghost faults = { λ files _. files };

    fn faults(&self, _name: &str) -> u64 {
        self.faults
    }

    fn read_at(&mut self, name: &str, at: u64, buf: &mut [u8]) -> Result<usize, Failed>
        ensures bound { ReadsAtMost result buf.new }
        ensures cause { HasCause self.old self.new result }
        ensures counted { self.new ≡ count_after_reading self.old result }
    {
        match read_once(&self.rt, name, at, buf) {
            Ok(count) => Ok(count),
            Err(_) => {
                count_up(&mut self.faults);
                Err(Failed)
            }
        }
    }
}

// The result of a system's write, with a failure or `Ok(0)` counted.
fn counted(answer: io::Result<usize>, faults: &mut u64) -> Result<usize, Failed>
    ensures same { MatchResult answer (λ n. result ≡ Ok n) (λ _. IsErr result) }
    ensures counted { faults.new ≡ count_after_writing faults.old result }
    ensures rises { faults.old ≤ faults.new }
{
    match answer {
        Ok(0) => {
            count_up(faults);
            Ok(0)
        }
        Ok(count) => Ok(count),
        Err(_) => {
            count_up(faults);
            Err(Failed)
        }
    }
}

/// Standard output, which tells nothing of what it has.
#[derive(Drop)]
pub struct StdSink<R: Print> {
    rt: R,
    faults: u64,
}

impl<R: Print> Model for StdSink<R> {
    ghost use Rattle.std.specs.Prelude.{ℕ};

    ghost Value = { ℕ };

    ghost view = { λ sink. sink.faults };
}

impl<R: Print + Drop> StdSink<R> {
    /// Returns a sink that has not failed yet. This writes nothing.
    pub fn new(rt: R) -> Self
        ensures { result ≡ 0 }
    {
        StdSink { rt, faults: 0 }
    }
}

impl<R: Print + Drop> Sink for StdSink<R> {
    ghost has = { λ _. None };

    ghost faults = { λ sink. sink };

    fn faults(&self) -> u64 {
        self.faults
    }

    fn write(&mut self, piece: &[u8]) -> Result<usize, Failed>
        ensures bound { WritesAtMost result piece.now }
        ensures cause { HasCause self.old self.new result }
        ensures counted { self.new ≡ count_after_writing self.old result }
    {
        let answer = io::writer(&self.rt).write(piece);
        counted(answer, &mut self.faults)
    }
}

/// A file that is made, or emptied, at the first writing. It tells nothing of what it has.
#[derive(Drop)]
pub struct FileSink<R: rt::Files> {
    rt: R,
    name: String,
    file: Option<R::File>,
    faults: u64,
}

impl<R: rt::Files> Model for FileSink<R> {
    ghost use Rattle.std.specs.Prelude.{ℕ};

    ghost Value = { ℕ };

    ghost view = { λ sink. sink.faults };
}

impl<R: rt::Files + Drop> FileSink<R> {
    /// Returns a sink that has not failed yet. This makes no file.
    pub fn new(rt: R, name: String) -> Self
        ensures { result ≡ 0 }
    {
        FileSink {
            rt,
            name,
            file: None,
            faults: 0,
        }
    }

    // Writes to the file, which it makes before the first writing.
    fn put(&mut self, piece: &[u8]) -> io::Result<usize>
        ensures bound { WritesAtMost result piece.now }
        ensures same { self.new ≡ self.old }
    {
        let mut file = match self.file.take() {
            Some(file) => file,
            None => fs::create(&self.rt, self.name.as_str())?,
        };
        let answer = file.write(piece);
        self.file = Some(file);
        answer
    }
}

impl<R: rt::Files + Drop> Sink for FileSink<R> {
    ghost has = { λ _. None };

    ghost faults = { λ sink. sink };

    fn faults(&self) -> u64 {
        self.faults
    }

    fn write(&mut self, piece: &[u8]) -> Result<usize, Failed>
        ensures bound { WritesAtMost result piece.now }
        ensures cause { HasCause self.old self.new result }
        ensures counted { self.new ≡ count_after_writing self.old result }
    {
        let answer = self.put(piece);
        counted(answer, &mut self.faults)
    }
}
