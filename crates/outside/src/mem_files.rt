//! Files in memory whose readings can fail.

ghost use Rattle.std.specs.Prelude.{◌≡◌, ◌≢◌, ◌↔◌, ◌<◌, ◌-◌, ◌++◌, List, [], ℕ, Some, None, IsErr, IfOk, OnOk, OnErr, length, min, take, drop, option_map, unwrap_or, IsSomeAnd};
ghost use Rattle.std.specs.Io.{ReadsAtMost};
ghost use Rattle.outside.specs.Causes.{HasCause};
ghost use Rattle.outside.specs.Outside.{Gives, IsBytes, IsCalm, ReadsOnly};
ghost use Rattle.outside.specs.GivenFile.{FailsNext, after_reading, new_file};
ghost use Rattle.outside.specs.MemFiles.{content_in, faults_in, file_of, held_in};

use crate::steps::{copy_from, count_up, is_to_fail};
use crate::{Failed, Files};
use std::alloc::{AllocError, Global};
use std::collections::HashMap;
use std::marker::Model;

// A file that was given.
#[derive(Drop)]
struct MemFile {
    // `None` where the file is absent.
    bytes: Option<Vec<u8>>,
    // The numbers of the readings that are to fail.
    fails: Vec<u64>,
    calls: u64,
    faults: u64,
}

impl Model for MemFile {
    ghost use Rattle.std.specs.Prelude.{option_map};
    ghost use Rattle.outside.specs.GivenFile.{GivenFile};

    ghost Value = { GivenFile };

    ghost view = { λ file. record {
      bytes = option_map (λ bytes. bytes.items) file.bytes;
      fails = file.fails.items;
      calls = file.calls;
      faults = file.faults;
    } };
}

impl MemFile {
    fn new(bytes: Option<Vec<u8>>, fails: Vec<u64>) -> Self
        ensures { result ≡ new_file (option_map (λ given. given.items) bytes) fails.items }
    {
        MemFile {
            bytes,
            fails,
            calls: 0,
            faults: 0,
        }
    }

    fn faults(&self) -> u64
        ensures { result ≡ self.now.faults }
    {
        self.faults
    }

    fn read(&mut self, at: u64, buf: &mut [u8]) -> Result<usize, Failed>
        ensures fails { IsErr result ↔ FailsNext self.old }
        ensures count { IfOk result (λ n.
            n ≡ min (length buf.old) (length (unwrap_or self.old.bytes []) - at)) }
        ensures filled { IfOk result (λ n.
            buf.new ≡ take n (drop at (unwrap_or self.old.bytes [])) ++ drop n buf.old) }
        ensures are { OnOk result (IsBytes (unwrap_or self.old.bytes [])) }
        ensures after { self.new ≡ after_reading self.old result }
        ensures cause { HasCause self.old.faults self.new.faults result }
    {
        let refused = is_to_fail(&self.fails, self.calls);
        count_up(&mut self.calls);
        if let Some(bytes) = &self.bytes
            && !refused
        {
            return Ok(copy_from(bytes, at, buf));
        }
        count_up(&mut self.faults);
        Err(Failed)
    }
}

/// Files in memory whose readings fail at chosen calls.
///
/// A name that was not given holds the empty list, and its readings never fail.
#[derive(Drop)]
pub struct MemFiles {
    given: HashMap<String, MemFile>,
}

impl MemFiles {
    /// Returns files of which none is given yet. This takes no memory.
    pub fn new(alloc: Global) -> Self
        ensures { (name : List ℕ) → file_of result name ≡ None }
    {
        MemFiles {
            given: HashMap::new(alloc),
        }
    }

    /// Gives a name its bytes, or marks it as absent where they are `None`, and tells which of its readings are to
    /// fail: the readings of each name are numbered from 0.
    ///
    /// A name that is given again has the later file in place of the earlier, with its counts begun anew.
    ///
    /// # Errors
    ///
    /// `AllocError` where memory runs out; then each name has the file that it had.
    #[tactic(auto, using(std::proofs::lemmas::Map::Text::text_keys))]
    pub fn give(
        &mut self,
        alloc: Global,
        name: &str,
        bytes: Option<Vec<u8>>,
        fails: Vec<u64>,
    ) -> Result<(), AllocError>
        ensures given { OnOk result (file_of self.new name.now
            ≡ Some (new_file (option_map (λ given. given.items) bytes) fails.items)) }
        ensures others { (other : List ℕ) → other ≢ name.now
            → file_of self.new other ≡ file_of self.old other }
        ensures err { OnErr result ((other : List ℕ)
            → file_of self.new other ≡ file_of self.old other) }
    {
        let name = String::from_str(alloc, name)?;
        self.given.insert(name, MemFile::new(bytes, fails))?;
        Ok(())
    }
}

impl Files for MemFiles {
    ghost holds = { held_in };

    ghost faults = { faults_in };

    fn faults(&self, name: &str) -> u64 {
        match self.given.get(name) {
            Some(file) => file.faults(),
            None => 0,
        }
    }

    #[tactic(auto, using(std::proofs::lemmas::Map::Text::text_keys))]
    fn read_at(&mut self, name: &str, at: u64, buf: &mut [u8]) -> Result<usize, Failed>
        requires { 0 < length buf.old }

        // What every kind of files ensures.
        ensures bound { ReadsAtMost result buf.new }
        ensures bytes { Gives (held_in self.old name.now) at result buf.new }
        ensures reads { ReadsOnly held_in faults_in name.now self.old self.new }
        ensures cause { HasCause (faults_in self.old name.now) (faults_in self.new name.now) result }
        ensures calm { OnOk result (IsCalm faults_in self.old self.new) }

        // When it fails, and how many bytes it gives otherwise.
        ensures fails { IsErr result ↔ IsSomeAnd (file_of self.old name.now) FailsNext }
        ensures count { IfOk result (λ n.
            n ≡ min (length buf.old) (length (content_in self.old name.now) - at)) }
        ensures filled { IfOk result (λ n.
            buf.new ≡ take n (drop at (content_in self.old name.now)) ++ drop n buf.old) }

        // What is counted.
        ensures after { file_of self.new name.now
            ≡ option_map (λ file. after_reading file result) (file_of self.old name.now) }
        ensures others { (other : List ℕ) → other ≢ name.now
            → file_of self.new other ≡ file_of self.old other }
    {
        match self.given.get_mut(name) {
            Some(file) => file.read(at, buf),
            None => Ok(0),
        }
    }
}
