//! The segments to be loaded.

ghost use Rattle.std.specs.Prelude.{◌≡◌, ◌≤◌, ◌+◌, ◌<◌, ◌^◌, length, insert, IfOk, OnOk, IfNone, Some, None, sum_by};
ghost use Rattle.std.specs.List.{All};
ghost use Rattle.elf_form.specs.Segments.{loads_from, load_faults, shared_with, lowest_shared, lower, total_size, segments_fault, segment_of, with_load, by_address};
ghost use Rattle.elf_form.specs.Faults.{first_fault};
ghost use Rattle.elf_form.specs.Meaning.{segments_of};
ghost use Rattle.elf_load.specs.Placed.{IsSegmentPlaced};
ghost use Rattle.elf_load.specs.Checks.{Checks};

use crate::tables::part;
use elf_form::{ElfFault, Load, ProgramHeader};
use pn_types::{MAX_IMAGE_SIZE, NoMemory, Segment, Seq};
use std::alloc::Global;

/// Returns the segments to be loaded, in table order.
///
/// # Errors
///
/// `NoMemory` where memory runs out.
pub fn loads_of(alloc: Global, headers: &[ProgramHeader]) -> Result<Vec<Load>, NoMemory>
    requires { length headers.now < 2 ^ 16 }
    ensures { IfOk result (λ loads. loads.items ≡ loads_from 0 headers.now) }
{
    let mut loads = Vec::new(alloc);
    for (index, header) in headers.iter().enumerate() {
        if header.is_load() {
            loads.push(Load {
                index: index as u32,
                header: *header,
            })?;
        }
    }
    Ok(loads)
}

/// The first fault of a single segment, in a file of `len` bytes.
fn first_load_fault(loads: &[Load], len: u64) -> Option<ElfFault>
    ensures fault { result ≡ first_fault (load_faults len 0 loads.now) }
    ensures placed { IfNone result (All (IsSegmentPlaced len) loads.now) }
    ensures few { IfNone result (length loads.now ≤ 16) }
{
    for (place, load) in loads.iter().enumerate() {
        let fault = load.fault(len, place);
        if fault.is_some() {
            return fault;
        }
    }
    None
}

/// The lower of two addresses, as far as there are any.
fn lower(a: Option<u64>, b: Option<u64>) -> Option<u64>
    ensures { result ≡ lower a b }
{
    match (a, b) {
        (Some(a), Some(b)) => Some(a.min(b)),
        (Some(a), None) => Some(a),
        (None, b) => b,
    }
}

/// The lowest address that a segment shares with one of the others.
fn shared_with(len: u64, load: &Load, others: &[Load]) -> Option<u64>
    requires load { IsSegmentPlaced len load.now }
    requires others { All (IsSegmentPlaced len) others.now }
    ensures { result ≡ shared_with load.now others.now }
{
    let mut lowest = None;
    for other in others {
        lowest = lower(lowest, load.shared(other));
    }
    lowest
}

/// The lowest address that is in two segments.
fn lowest_shared(len: u64, loads: &[Load]) -> Option<u64>
    requires { All (IsSegmentPlaced len) loads.now }
    ensures { result ≡ lowest_shared loads.now }
{
    let mut lowest = None;
    for (i, load) in loads.iter().enumerate() {
        lowest = lower(lowest, shared_with(len, load, &loads[i + 1..]));
    }
    lowest
}

/// The bytes of all segments' memory together.
fn total_size(len: u64, loads: &[Load]) -> u64
    requires placed { All (IsSegmentPlaced len) loads.now }
    requires few { length loads.now ≤ 16 }
    ensures { result ≡ total_size loads.now }
{
    let mut total = 0;
    for load in loads {
        total += load.header.memory_size;
    }
    total
}

/// Checks the segments of a file of `len` bytes.
///
/// # Errors
///
/// The first fault of the segments.
#[tactic(auto, unfolding(elf_form::specs::Segments::segments_fault))]
pub fn check_segments(loads: &[Load], len: u64) -> Result<(), ElfFault>
    ensures fault { Checks result (segments_fault len loads.now) }
    ensures placed { OnOk result (All (IsSegmentPlaced len) loads.now) }
{
    if let Some(fault) = first_load_fault(loads, len) {
        return Err(fault);
    }
    if let Some(at) = lowest_shared(len, loads) {
        return Err(ElfFault::Overlap(at));
    }
    let total = total_size(len, loads);
    if total > MAX_IMAGE_SIZE {
        return Err(ElfFault::TooBig(total));
    }
    Ok(())
}

/// Where a segment stands among others by ascending address.
fn place_of(sorted: &[Load], load: &Load) -> usize
    ensures place { insert sorted.now result load.now ≡ with_load sorted.now load.now }
    ensures within { result ≤ length sorted.now }
{
    for (i, other) in sorted.iter().enumerate() {
        if load.header.address < other.header.address {
            return i;
        }
    }
    sorted.len()
}

/// The segments by ascending address.
fn by_address(alloc: Global, loads: &[Load]) -> Result<Vec<Load>, NoMemory>
    ensures { IfOk result (λ sorted. sorted.items ≡ by_address loads.now) }
{
    let mut sorted = Vec::new(alloc);
    for load in loads {
        let place = place_of(&sorted, load);
        sorted.insert(place, *load)?;
    }
    Ok(sorted)
}

/// The memory of a segment.
fn segment_of(alloc: Global, bytes: &[u8], load: &Load) -> Result<Segment, NoMemory>
    ensures { IfOk result (λ segment. segment ≡ segment_of bytes.now load.now) }
{
    let header = load.header;
    let bytes = part(bytes, header.offset, header.file_size);
    Ok(Segment {
        at: header.address,
        bytes: Seq::from_vec(bytes.to_vec(alloc)?),
        size: header.memory_size,
    })
}

/// Returns the memory of the segments by ascending address.
///
/// # Errors
///
/// `NoMemory` where memory runs out.
#[tactic(auto, unfolding(elf_form::specs::Meaning::segments_of))]
pub fn segments_of(alloc: Global, bytes: &[u8], loads: &[Load]) -> Result<Vec<Segment>, NoMemory>
    ensures { IfOk result (λ segments. segments.items ≡ segments_of bytes.now loads.now) }
{
    let mut segments = Vec::new(alloc);
    for load in &by_address(alloc, loads)? {
        segments.push(segment_of(alloc, bytes, load)?)?;
    }
    Ok(segments)
}
