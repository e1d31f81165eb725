//! Files among which standard input is one.

ghost use Rattle.std.specs.Prelude.{◌≡◌, ℕ, List, length, OnOk};
ghost use Rattle.std.specs.Io.{ReadsAtMost};
ghost use Rattle.outside.specs.Causes.{HasCause};
ghost use Rattle.outside.specs.Outside.{Gives, IsCalm, ReadsOnly};
ghost use Rattle.std_input.specs.Inputs.{faults_with, holds_with};

use outside::{Failed, Files, SureFiles};

/// The name under which standard input is read.
pub const STANDARD_INPUT: &str = "-";

/// Files, and under the name `-` what standard input gave, if it was read.
#[derive(Drop)]
pub struct WithInput<F> {
    /// The other files.
    pub files: F,
    /// What standard input gave, under its name.
    pub input: Option<SureFiles>,
}

impl<F: Files> Files for WithInput<F> {
    ghost holds = { holds_with F.holds };

    ghost faults = { faults_with F.faults };

    fn faults(&self, name: &str) -> u64 {
        match &self.input {
            Some(_) if name == STANDARD_INPUT => 0,
            _ => self.files.faults(name),
        }
    }

    fn read_at(&mut self, name: &str, at: u64, buf: &mut [u8]) -> Result<usize, Failed> {
        match &mut self.input {
            Some(input) if name == STANDARD_INPUT => input.read_at(name, at, buf),
            _ => self.files.read_at(name, at, buf),
        }
    }
}
