//! Writing a log.

ghost use Rattle.std.specs.Prelude.{◌≡◌, ◌++◌, length, IfOk, OnOk};
ghost use Rattle.std.specs.List.{flat_map, AllByRecursion};
ghost use Rattle.quanta_log.specs.Spelling.{start_number, head, entry, spelled, IsQuantum, CanSpell};

use crate::version::Version;
use byteorder::{ByteOrder, LittleEndian};
use pn_types::{MAX_HARTS, NoMemory, Quantum, Settings, Start};
use std::alloc::Global;

/// The number that stands for a start.
fn start_number(start: Start) -> u32
    ensures { result ≡ start_number start }
{
    match start {
        Start::Cold => 0,
        Start::Warm => 1,
    }
}

/// The head of a log of `count` entries.
#[tactic(auto, unfolding(crate::specs::Spelling::head))]
fn head_of(settings: &Settings, count: u64) -> [u8; 48]
    ensures { result ≡ head Version.Two settings.now count }
{
    let mut head = [0; 48];
    head[..8].copy_from_slice(b"PDYNLOG2");
    LittleEndian::write_u32(&mut head[8..], settings.harts);
    LittleEndian::write_u32(&mut head[12..], settings.bins);
    LittleEndian::write_u64(&mut head[16..], settings.budget);
    LittleEndian::write_u64(&mut head[24..], settings.width);
    LittleEndian::write_u64(&mut head[32..], count);
    LittleEndian::write_u32(&mut head[40..], start_number(settings.start));
    LittleEndian::write_u32(&mut head[44..], settings.instruments);
    head
}

/// The entry of a quantum.
#[tactic(auto, unfolding(crate::specs::Spelling::entry))]
fn entry_of(quantum: &Quantum) -> [u8; 8]
    requires { IsQuantum MAX_HARTS quantum.now }
    ensures { result ≡ entry Version.Two quantum.now }
{
    let mut entry = [0; 8];
    entry[0] = quantum.worker;
    entry[1] = quantum.hart;
    LittleEndian::write_u16(&mut entry[2..], quantum.turns);
    LittleEndian::write_u16(&mut entry[4..], quantum.owns);
    entry
}

/// Appends the entries of quanta.
fn push_entries(out: &mut Vec<u8>, quanta: &[Quantum]) -> Result<(), NoMemory>
    requires { AllByRecursion (IsQuantum MAX_HARTS) quanta.now }
    ensures { OnOk result (out.new.items ≡ out.old.items ++ flat_map (entry Version.Two) quanta.now) }
{
    for quantum in quanta {
        out.extend_from_slice(&entry_of(quantum))?;
    }
    Ok(())
}

/// Returns the log of settings and quanta, in version 2.
///
/// # Errors
///
/// `NoMemory` where memory runs out.
#[tactic(auto, using(crate::proofs::EntryBytes::of_most_harts), unfolding(crate::specs::Spelling::spelled))]
pub fn write(alloc: Global, settings: &Settings, quanta: &[Quantum]) -> Result<Vec<u8>, NoMemory>
    requires { CanSpell Version.Two settings.now quanta.now }
    ensures { IfOk result (λ log. log.items ≡ spelled Version.Two settings.now quanta.now) }
{
    let count = quanta.len() as u64;
    let mut log = Vec::with_capacity(alloc, Version::Two.log_len(count) as usize)?;
    log.extend_from_slice(&head_of(settings, count))?;
    push_entries(&mut log, quanta)?;
    Ok(log)
}
