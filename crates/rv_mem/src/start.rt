//! The memory at the start of a program.

ghost use Rattle.std.specs.Prelude.{◌≡◌, ◌≤◌, IfOk, length, replicate};
ghost use Rattle.pn_types.specs.Images.{IsImage};
ghost use Rattle.rv_mem.specs.Regions.{region_part};
ghost use Rattle.rv_mem.specs.Start.{segment_part, start_memory, heap_len, stack_len};

use crate::mapped::Region;
use crate::mem::Mem;
use pn_types::{Image, MAX_HARTS, NoMemory, SEGMENTS_TO, Segment};
use std::alloc::Global;

/// The first address of the heap.
pub const HEAP_AT: u64 = SEGMENTS_TO;

/// The length of the heap, in bytes.
pub const HEAP_LEN: usize = 1_048_576;

/// The first address of the stack of hart 0.
pub const FIRST_STACK_AT: u64 = 0x7000_0000;

/// How far the first addresses of two harts' stacks are apart, where their numbers differ by 1.
pub const STACK_DISTANCE: u64 = 0x2_0000;

/// The length of a hart's stack, in bytes.
pub const STACK_LEN: usize = 65_536;

/// How many pages of 4,096 bytes there are from address 0 to the end of the last stack.
const PAGES: usize = ((FIRST_STACK_AT + MAX_HARTS as u64 * STACK_DISTANCE) / 4_096) as usize;

/// A region of zeros, of which none is written.
fn empty_region(alloc: Global, at: u64, len: usize) -> Result<Region, NoMemory>
    ensures { IfOk result (λ region. region_part region ≡ (at, replicate len 0)) }
{
    Ok(Region::new(at, Vec::with_capacity(alloc, len)?, len))
}

/// The bytes of the segment, and zeros to its size.
fn segment_region(alloc: Global, segment: &Segment) -> Result<Region, NoMemory>
    requires { length segment.now.bytes ≤ segment.now.size }
    ensures { IfOk result (λ region. region_part region ≡ segment_part segment.now) }
{
    let mut bytes = Vec::with_capacity(alloc, segment.size as usize)?;
    bytes.extend_from_slice(segment.bytes.as_slice())?;
    bytes.resize(segment.size as usize, 0)?;
    Ok(Region::new(segment.at, bytes, 0))
}

/// The memory at the start, where proofs see no length of heap and stack as a numeral.
fn with_lengths(
    alloc: Global,
    image: &Image,
    harts: u32,
    heap: usize,
    stack: usize,
    pages: usize,
) -> Result<Mem, NoMemory>
    requires image { IsImage image.now }
    requires harts { harts ≤ MAX_HARTS }
    requires heap { heap ≡ heap_len }
    requires stack { stack ≡ stack_len }
    ensures { IfOk result (λ mem. mem ≡ start_memory image.now harts) }
{
    let mut regions = Vec::new(alloc);
    let segments = image.segments.as_slice();
    for segment in segments {
        regions.push(segment_region(alloc, segment)?)?;
    }
    regions.push(empty_region(alloc, HEAP_AT, heap)?)?;
    for hart in 0..harts {
        regions.push(empty_region(alloc, FIRST_STACK_AT + hart as u64 * STACK_DISTANCE, stack)?)?;
    }
    Mem::from_regions(alloc, regions, image.text_at, image.text_len, pages)
}

impl Mem {
    /// The memory in which this number of harts starts the program: the image's segments, a heap of [`HEAP_LEN`] bytes at
    /// [`HEAP_AT`], and for hart h a stack of [`STACK_LEN`] bytes at [`FIRST_STACK_AT`] + h * [`STACK_DISTANCE`].
    ///
    /// # Errors
    ///
    /// `NoMemory` if memory runs out.
    pub fn new(alloc: Global, image: &Image, harts: u32) -> Result<Mem, NoMemory>
        requires image { IsImage image.now }
        requires harts { harts ≤ MAX_HARTS }
        ensures { IfOk result (λ mem. mem ≡ start_memory image.now harts) }
    {
        with_lengths(alloc, image, harts, HEAP_LEN, STACK_LEN, PAGES)
    }
}
