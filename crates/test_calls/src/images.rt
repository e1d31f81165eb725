//! Programs of a few words.

ghost use Rattle.std.specs.Prelude.{IfOk};
ghost use Rattle.pn_types.specs.Images.{IsImage};

use pn_types::{Image, NoMemory, Segment, Seq};
use std::alloc::Global;

/// `li a7, 93`, `li a0, 7` and `ecall`: exit with status 7.
const EXIT: &[u8; 12] = b"\x93\x08\xd0\x05\x13\x05\x70\0\x73\0\0\0";

/// Returns an image: text of 12 bytes that ends the program with status 7, 4 zeros after it, and data that touches the zeros.
///
/// # Errors
///
/// `NoMemory` where memory runs out.
pub fn image(alloc: Global) -> Result<Image, NoMemory>
    ensures { IfOk result IsImage }
{
    let mut segments = Vec::new(alloc);
    segments.push(Segment {
        at: 0x10000,
        bytes: Seq::from_vec(EXIT.to_vec(alloc)?),
        size: 16,
    })?;
    segments.push(Segment {
        at: 0x10010,
        bytes: Seq::from_vec(vec![in alloc; 1, 2, 3, 4, 5, 6, 7, 8]?),
        size: 8,
    })?;
    Ok(Image {
        segments: Seq::from_vec(segments),
        text_at: 0x10000,
        text_len: 12,
        entry: 0x10000,
        symbols: Seq::from_vec(Vec::new(alloc)),
    })
}
