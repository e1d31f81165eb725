//! The versions of the form that logs have, and their lengths.

ghost use Rattle.std.specs.Prelude.{◌≡◌, ◌≤◌};
ghost use Rattle.quanta_log.specs.Fields.{magic, head_len, entry_len, log_len, most_harts};

use pn_types::{MAX_HARTS, MAX_QUANTA};

/// A version of the form that logs have.
#[derive(Clone, Copy, PartialEq, Eq, Drop)]
pub enum Version {
    /// Four bytes for each number of a quantum, at most 16 harts, a cold start and 64 instruments.
    One,
    /// Eight bytes for each quantum. This one is written.
    Two,
}

impl Version {
    /// The first eight bytes.
    pub(crate) fn magic(self) -> &'static [u8]
        ensures { result.now ≡ magic self }
    {
        match self {
            Version::One => b"PDYNLOG1",
            Version::Two => b"PDYNLOG2",
        }
    }

    /// The length of the head in bytes.
    pub(crate) fn head_len(self) -> usize
        ensures { result ≡ head_len self }
    {
        match self {
            Version::One => 40,
            Version::Two => 48,
        }
    }

    /// The length of an entry in bytes.
    pub(crate) fn entry_len(self) -> usize
        ensures { result ≡ entry_len self }
    {
        match self {
            Version::One => 16,
            Version::Two => 8,
        }
    }

    /// The length in bytes of a log of `count` entries.
    pub(crate) fn log_len(self, count: u64) -> u64
        requires { count ≤ MAX_QUANTA }
        ensures { result ≡ log_len self count }
    {
        self.head_len() as u64 + count * self.entry_len() as u64
    }

    /// The greatest number of harts.
    pub(crate) fn most_harts(self) -> u32
        ensures { result ≡ most_harts self }
    {
        match self {
            Version::One => 16,
            Version::Two => MAX_HARTS,
        }
    }
}
