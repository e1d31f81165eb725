//! Numbers at the end of a file, lowest byte first.

ghost use Rattle.std.specs.Prelude.{◌≡◌, ◌++◌, ◌<◌, OnOk, length, replicate};
ghost use Rattle.elf_write.specs.Fields.{halves, words, doublewords, padding, padded};

use byteorder::{ByteOrder, LittleEndian};
use pn_types::NoMemory;

/// As many zeros as a part ever has after it, and one more.
const ZEROS: [u8; 8] = [0; 8];

/// Appends numbers of two bytes.
///
/// # Errors
///
/// `NoMemory` where memory runs out.
#[tactic(auto, unfolding(crate::specs::Fields::halves))]
pub fn push_halves(out: &mut Vec<u8>, numbers: &[u16]) -> Result<(), NoMemory>
    ensures { OnOk result (out.new.items ≡ out.old.items ++ halves numbers.now) }
{
    for number in numbers {
        let mut bytes = [0; 2];
        LittleEndian::write_u16(&mut bytes, *number);
        out.extend_from_slice(&bytes)?;
    }
    Ok(())
}

/// Appends numbers of four bytes.
///
/// # Errors
///
/// `NoMemory` where memory runs out.
#[tactic(auto, unfolding(crate::specs::Fields::words))]
pub fn push_words(out: &mut Vec<u8>, numbers: &[u32]) -> Result<(), NoMemory>
    ensures { OnOk result (out.new.items ≡ out.old.items ++ words numbers.now) }
{
    for number in numbers {
        let mut bytes = [0; 4];
        LittleEndian::write_u32(&mut bytes, *number);
        out.extend_from_slice(&bytes)?;
    }
    Ok(())
}

/// Appends numbers of eight bytes.
///
/// # Errors
///
/// `NoMemory` where memory runs out.
#[tactic(auto, unfolding(crate::specs::Fields::doublewords))]
pub fn push_doublewords(out: &mut Vec<u8>, numbers: &[u64]) -> Result<(), NoMemory>
    ensures { OnOk result (out.new.items ≡ out.old.items ++ doublewords numbers.now) }
{
    for number in numbers {
        let mut bytes = [0; 8];
        LittleEndian::write_u64(&mut bytes, *number);
        out.extend_from_slice(&bytes)?;
    }
    Ok(())
}

/// Returns how many zeros stand after a part of `len` bytes, up to the next multiple of 8.
pub fn padding(len: u64) -> u64
    ensures number { result ≡ padding len }
    ensures few { result < 8 }
{
    (8 - len % 8) % 8
}

/// Zeros, `count` of them.
fn zeros(count: u64) -> &'static [u8]
    requires { count < 8 }
    ensures { result.now ≡ replicate count 0 }
{
    &ZEROS[..count as usize]
}

/// Appends a part, and the zeros after it.
///
/// # Errors
///
/// `NoMemory` where memory runs out.
#[tactic(auto, unfolding(crate::specs::Fields::padded))]
pub fn push_padded(out: &mut Vec<u8>, part: &[u8]) -> Result<(), NoMemory>
    ensures { OnOk result (out.new.items ≡ out.old.items ++ padded part.now) }
{
    out.extend_from_slice(part)?;
    out.extend_from_slice(zeros(padding(part.len() as u64)))?;
    Ok(())
}
