//! Reads files to their ends.

ghost use Rattle.std.specs.Prelude.{◌≡◌, ◌≤◌, IfOk, length};
ghost use Rattle.commands.specs.FileReadings.{reads, IsContent, Looks};
ghost use Rattle.outside.specs.Outside.{IsBytes};
ghost use Rattle.refusals.specs.Refusals.{Comes};

use outside::{Files, ReadFault, read_whole};
use pn_types::{NoMemory, Seq, Text};
use refusals::{Fault, Refusal};
use std::alloc::Global;

/// Returns the bytes of a word as a text.
///
/// # Errors
///
/// `NoMemory` where memory runs out.
pub fn text_of(alloc: Global, word: &str) -> Result<Text, NoMemory>
    ensures { IfOk result (λ text. text ≡ word.now) }
{
    Ok(Text::from_vec(word.as_bytes().to_vec(alloc)?))
}

/// What holds of any slice of bytes: its elements are bytes.
fn are_bytes(bytes: &[u8])
    ensures { IsBytes bytes.now }
{
    // For the proof alone: once the slice is read, the range of its elements is known.
    let _count = bytes.len();
}

/// Reads a file to its end. It is refused with the fault `too_long` where it has more than `most` bytes.
///
/// # Errors
///
/// `Refusal::NoMemory` where memory runs out; `too_long`; `FileFault` with the name where the file can't be read.
pub fn read_file<F: Files>(
    alloc: Global,
    files: &mut F,
    name: &str,
    most: u64,
    too_long: Fault,
) -> Result<Seq<u8>, Refusal>
    ensures content { Comes result
        (IsContent (reads (F.holds files.old) (F.faults files.old) (F.faults files.new)) most too_long name.now) }
    ensures short { IfOk result (λ bytes. length bytes ≤ most) }
    ensures looks { Looks F.holds F.faults files.old files.new result }
{
    // This is made first, so that memory can't run out once the file couldn't be read.
    let unread = text_of(alloc, name)?;
    match read_whole(alloc, files, name, most) {
        Ok(bytes) => {
            are_bytes(&bytes);
            Ok(Seq::from_vec(bytes))
        }
        Err(ReadFault::TooLong) => Err(Refusal::Fault(too_long)),
        Err(ReadFault::NoMemory) => Err(Refusal::NoMemory),
        Err(ReadFault::Outside) => Err(Refusal::Fault(Fault::FileFault(unread))),
    }
}
