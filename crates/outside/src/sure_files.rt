//! Files in memory whose readings never fail.

ghost use Rattle.std.specs.Prelude.{◌≡◌, ◌≢◌, ◌<◌, ◌-◌, ◌++◌, List, ℕ, [], IfOk, OnOk, OnErr, length, min, take, drop};
ghost use Rattle.outside.specs.Outside.{Gives};
ghost use Rattle.outside.specs.SureFiles.{content_of, held_in};

use crate::steps::copy_from;
use crate::{Failed, Files};
use std::alloc::{AllocError, Global};
use std::collections::HashMap;

/// Files in memory, whose readings never fail.
///
/// A name that was not given holds the empty list.
#[derive(Drop)]
pub struct SureFiles {
    given: HashMap<String, Vec<u8>>,
}

impl SureFiles {
    /// Returns files of which none is given yet. This takes no memory.
    pub fn new(alloc: Global) -> Self
        ensures { (name : List ℕ) → content_of result name ≡ [] }
    {
        SureFiles {
            given: HashMap::new(alloc),
        }
    }

    /// Gives a name its bytes. A name that is given again has the later bytes.
    ///
    /// # Errors
    ///
    /// `AllocError` where memory runs out; then each name has the bytes that it had.
    #[tactic(auto, using(std::proofs::lemmas::Map::Text::text_keys))]
    pub fn give(&mut self, alloc: Global, name: &str, bytes: Vec<u8>) -> Result<(), AllocError>
        ensures given { OnOk result (content_of self.new name.now ≡ bytes.items) }
        ensures others { (other : List ℕ) → other ≢ name.now
            → content_of self.new other ≡ content_of self.old other }
        ensures err { OnErr result ((other : List ℕ)
            → content_of self.new other ≡ content_of self.old other) }
    {
        let name = String::from_str(alloc, name)?;
        self.given.insert(name, bytes)?;
        Ok(())
    }
}

impl Files for SureFiles {
    ghost holds = { held_in };

    ghost faults = { λ _ _. 0 };

    fn faults(&self, _name: &str) -> u64 {
        0
    }

    fn read_at(&mut self, name: &str, at: u64, buf: &mut [u8]) -> Result<usize, Failed>
        requires { 0 < length buf.old }
        ensures bytes { Gives (held_in self.old name.now) at result buf.new }
        ensures count { result
            ≡ Ok (min (length buf.old) (length (content_of self.old name.now) - at)) }
        ensures filled { IfOk result (λ n.
            buf.new ≡ take n (drop at (content_of self.old name.now)) ++ drop n buf.old) }
        ensures same { self.new ≡ self.old }
    {
        match self.given.get(name) {
            Some(bytes) => Ok(copy_from(bytes, at, buf)),
            None => Ok(0),
        }
    }
}
