//! What files and sinks are: readings and writings that may fail, with counts of faults.

ghost use Rattle.std.specs.Prelude.{◌≡◌, ◌<◌, List, ℕ, length, Option, OnOk};
ghost use Rattle.std.specs.Io.{ReadsAtMost, WritesAtMost};
ghost use Rattle.outside.specs.Causes.{HasCause};
ghost use Rattle.outside.specs.Outside.{Holding, Gives, Gains, Counts, ReadsOnly, IsCalm};

/// A call to the outside failed, and its count of faults rose.
#[derive(Clone, Copy, Debug, PartialEq, Eq, Drop)]
pub struct Failed;

/// Files that are read by name.
///
/// Each name has a count of faults, which never falls. No call changes what a file holds, or whether that is told.
pub trait Files {
    /// What the file of a name holds: bytes, or that it is absent, where that is told.
    ghost holds: { Self → List ℕ → Holding };

    /// The count of faults of a name.
    ghost faults: { Self → List ℕ → ℕ };

    /// How many readings of a name have failed. The count stops at 2^64 - 1.
    fn faults(&self, name: &str) -> u64
        ensures { result ≡ faults self.now name.now };

    /// Reads bytes of a file, from its byte `at` on, into the front of `buf`.
    ///
    /// `Ok(n)` gives n bytes, and `Ok(0)` comes only at or past the end of the file.
    ///
    /// # Errors
    ///
    /// `Failed` comes only where the name's count of faults rose, as at each reading of an absent file. Where it is
    /// told what another name holds, that name's count stays.
    fn read_at(&mut self, name: &str, at: u64, buf: &mut [u8]) -> Result<usize, Failed>
        requires { 0 < length buf.old }
        ensures bound { ReadsAtMost result buf.new }
        ensures bytes { Gives (holds self.old name.now) at result buf.new }
        ensures reads { ReadsOnly holds faults name.now self.old self.new }
        ensures cause { HasCause (faults self.old name.now) (faults self.new name.now) result }
        ensures calm { OnOk result (IsCalm faults self.old self.new) };
}

/// A place that bytes are written to, one after another.
///
/// Its count of faults never falls, and no call changes whether its content is told.
pub trait Sink {
    /// The bytes that it has, where that is told.
    ghost has: { Self → Option (List ℕ) };

    /// The count of faults.
    ghost faults: { Self → ℕ };

    /// How many writings have failed. The count stops at 2^64 - 1.
    fn faults(&self) -> u64
        ensures { result ≡ faults self.now };

    /// Appends bytes from the front of `piece`.
    ///
    /// `Ok(n)` appended the first n bytes. `Ok(0)` raises the count of faults, and a caller treats it as one.
    ///
    /// # Errors
    ///
    /// `Failed` comes only where the count of faults rose, and then no byte was appended.
    fn write(&mut self, piece: &[u8]) -> Result<usize, Failed>
        requires { 0 < length piece.now }
        ensures bound { WritesAtMost result piece.now }
        ensures bytes { Gains (has self.old) (has self.new) result piece.now }
        ensures cause { HasCause (faults self.old) (faults self.new) result }
        ensures count { Counts (faults self.old) (faults self.new) result };
}
