//! Programs of a few words.

ghost use Rattle.std.specs.Prelude.{◌≡◌, IfOk};
ghost use Rattle.test_examples.specs.HartInside.{three_image};
ghost use Rattle.test_examples.specs.LoopCounted as example;

use pn_types::{Image, NoMemory, Segment, Seq};
use std::alloc::Global;

/// `addi a0, a0, 1`, `li a7, 93` and `ecall`: exit with status 1.
///
/// # Errors
///
/// `NoMemory` if memory runs out.
pub fn words_image(alloc: Global) -> Result<Image, NoMemory>
    ensures { IfOk result (λ image. image ≡ three_image) }
{
    let mut segments = Vec::new(alloc);
    segments.push(Segment {
        at: 0x10000,
        bytes: Seq::from_vec(vec![in alloc;
            0x13, 0x05, 0x15, 0, 0x93, 0x08, 0xd0, 0x05, 0x73, 0, 0, 0,
        ]?),
        size: 12,
    })?;
    Ok(Image {
        segments: Seq::from_vec(segments),
        text_at: 0x10000,
        text_len: 12,
        entry: 0x10000,
        symbols: Seq::from_vec(Vec::new(alloc)),
    })
}

/// A jump to itself.
///
/// # Errors
///
/// `NoMemory` if memory runs out.
pub fn loop_image(alloc: Global) -> Result<Image, NoMemory>
    ensures { IfOk result (λ image. image ≡ example.loop) }
{
    let mut segments = Vec::new(alloc);
    segments.push(Segment {
        at: 0x10000,
        bytes: Seq::from_vec(vec![in alloc; 0x6f, 0, 0, 0]?),
        size: 4,
    })?;
    Ok(Image {
        segments: Seq::from_vec(segments),
        text_at: 0x10000,
        text_len: 4,
        entry: 0x10000,
        symbols: Seq::from_vec(Vec::new(alloc)),
    })
}
