//! Reading a whole file.

ghost use Rattle.std.specs.Prelude.{◌≡◌, ◌<◌, ◌≤◌, IsErrOf, IfOk, vec_len, length, []};
ghost use Rattle.outside.specs.Causes.{Rose};
ghost use Rattle.outside.specs.Outside.{IsWhole, IsLonger, ReadsOnly, IsCalm};
ghost use Rattle.outside.specs.declared.reading.ReadFault.TheVariants.{NoMemory, Outside, TooLong};

use crate::{Failed, Files};
use std::alloc::{AllocError, Global};

/// Why a file was not read whole.
#[derive(Clone, Copy, Debug, PartialEq, Eq, Drop)]
pub enum ReadFault {
    /// There was no memory for its bytes.
    NoMemory,

    /// A reading failed, and the name's count of faults rose.
    Outside,

    /// The file has more bytes than were asked for at most.
    TooLong,
}

impl From<AllocError> for ReadFault {
    ghost from_gives = { λ _ fault. fault ≡ NoMemory };

    fn from(_: AllocError) -> Self {
        ReadFault::NoMemory
    }
}

impl From<Failed> for ReadFault {
    ghost from_gives = { λ _ fault. fault ≡ Outside };

    fn from(_: Failed) -> Self {
        ReadFault::Outside
    }
}

// The most bytes of one reading.
const PIECE: usize = 65536;

/// Reads a file to its end, where it has at most `most` bytes.
///
/// # Errors
///
/// `Outside` comes where a reading failed, `TooLong` where the file has more than `most` bytes, and `NoMemory` where
/// memory for its bytes runs out. No count of faults rises but where it returns `Outside`.
pub fn read_whole<F: Files>(
    alloc: Global,
    files: &mut F,
    name: &str,
    most: u64,
) -> Result<Vec<u8>, ReadFault>
    ensures whole { IfOk result (λ bytes. IsWhole (F.holds files.old name.now) bytes.items) }
    ensures short { IfOk result (λ bytes. vec_len bytes ≤ most) }
    ensures long { IsErrOf result TooLong → IsLonger (F.holds files.old name.now) most }
    ensures reads { ReadsOnly F.holds F.faults name.now files.old files.new }
    ensures cause { IsErrOf result Outside
        → Rose (F.faults files.old name.now) (F.faults files.new name.now) }
    ensures calm { (result ≡ Err Outside → ⊥) → IsCalm F.faults files.old files.new }
{
    let mut buf = vec![in alloc; 0u8; PIECE]?;
    read_pieces(files, name, most, &mut buf, Vec::new(alloc))
}

// Reads a file to its end through a buffer. The buffer is made elsewhere, since a list of its length would stand in
// each goal of the function that makes it.
fn read_pieces<F: Files>(
    files: &mut F,
    name: &str,
    most: u64,
    buf: &mut [u8],
    mut bytes: Vec<u8>,
) -> Result<Vec<u8>, ReadFault>
    requires room { 0 < length buf.old }
    requires empty { bytes.items ≡ [] }
    ensures whole { IfOk result (λ bytes. IsWhole (F.holds files.old name.now) bytes.items) }
    ensures short { IfOk result (λ bytes. vec_len bytes ≤ most) }
    ensures long { IsErrOf result TooLong → IsLonger (F.holds files.old name.now) most }
    ensures reads { ReadsOnly F.holds F.faults name.now files.old files.new }
    ensures cause { IsErrOf result Outside
        → Rose (F.faults files.old name.now) (F.faults files.new name.now) }
    ensures calm { (result ≡ Err Outside → ⊥) → IsCalm F.faults files.old files.new }
{
    'pieces: while bytes.len() as u64 <= most {
        let count = files.read_at(name, bytes.len() as u64, buf)?;
        if count == 0 {
            return Ok(bytes);
        }
        bytes.extend_from_slice(&buf[..count])?;
    }
    Err(ReadFault::TooLong)
}
