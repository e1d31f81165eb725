//! The greatest and least numbers of a run.

/// The greatest number of harts of a machine.
pub const MAX_HARTS: u32 = 32;

/// The greatest number of workers that share a run.
pub const MAX_WORKERS: u32 = 16;

/// The greatest budget of a hart, in ticks.
pub const MAX_BUDGET: u64 = 100_000_000;

/// The greatest number of turns of a quantum.
pub const MAX_QUANTUM: u32 = 10_000;

/// The greatest number of quanta of a run.
pub const MAX_QUANTA: u32 = 16_777_216;

/// The least number of bins of a histogram.
pub const MIN_BINS: u32 = 2;

/// The greatest number of bins of a histogram.
pub const MAX_BINS: u32 = 1_024;

/// The greatest width of a sample's interval, in ticks.
pub const MAX_WIDTH: u64 = 1_000_000;

/// The greatest number of instruments that can be allowed at once.
pub const MAX_INSTRUMENTS: u32 = 1_024;

/// The number of instruments that are allowed at once where nothing else is said.
pub const USUAL_INSTRUMENTS: u32 = 64;

/// The greatest number of segments of an image.
pub const MAX_SEGMENTS: u32 = 16;

/// The lowest address of a segment.
pub const SEGMENTS_FROM: u64 = 0x1_0000;

/// Where segments end at most, which is where the heap begins.
pub const SEGMENTS_TO: u64 = 0x6000_0000;

/// The greatest size of all segments of an image together, in bytes.
pub const MAX_IMAGE_SIZE: u64 = 25_165_824;

/// The greatest length of a text, in bytes.
pub const MAX_TEXT_LEN: u64 = 524_288;

/// The length of the tool text, in bytes.
pub const TOOL_TEXT_LEN: u64 = 393_216;

/// The number of doublewords of a hart's bank.
pub const BANK_LEN: u32 = 4_096;

/// The first doubleword of a bank that is a slot: 0 reads as the hart's ticks, and 1 saves x5.
pub const FIRST_SLOT: u32 = 2;
