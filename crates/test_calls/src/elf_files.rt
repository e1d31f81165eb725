//! ELF files with their headers, their images and their faults.

use crate::comparison::compare;
use elf_form::{
    ElfError, ElfFault, Load, begins_as_elf, header_of, program_header_at, section_header_at,
    symbol_entry_at,
};
use elf_load::load;
use std::alloc::Global;

/// A file header, a program header, a section header and a symbol, one after the other.
const PARTS: &[u8; 208] = b"\x7fELF\x02\x01\x01\0\0\0\0\0\0\0\0\0\
\x02\0\xf3\0\x01\0\0\0\0\0\x01\0\0\0\0\0\x40\0\0\0\0\0\0\0\
\x78\0\0\0\0\0\0\0\0\0\0\0\x40\0\x38\0\x01\0\x40\0\x01\0\0\0\
\x01\0\0\0\x07\0\0\0\x78\0\0\0\0\0\0\0\
\0\0\x01\0\0\0\0\0\0\0\x01\0\0\0\0\0\
\x0c\0\0\0\0\0\0\0\x10\0\0\0\0\0\0\0\x01\0\0\0\0\0\0\0\
\0\0\0\0\x01\0\0\0\x06\0\0\0\0\0\0\0\
\0\0\x01\0\0\0\0\0\x78\0\0\0\0\0\0\0\
\x0c\0\0\0\0\0\0\0\0\0\0\0\0\0\0\0\x04\0\0\0\0\0\0\0\0\0\0\0\0\0\0\0\
\x05\0\0\0\x12\0\x01\0\x04\0\x01\0\0\0\0\0\x08\0\0\0\0\0\0\0";

#[test]
fn headers_are_read(rt: HostRuntime) {
    let header = header_of(PARTS);
    let load = Load {
        index: 0,
        header: program_header_at(PARTS, 64),
    };
    let fault = load.fault(208, 0);
    let section = section_header_at(PARTS, 120);
    let range = section.widened(None);
    let entry = symbol_entry_at(PARTS, 184);
    let true_ones = [
        begins_as_elf(PARTS),
        header.is_riscv64(),
        load.header.is_load(),
        section.is_text(),
        fault.is_none() && load.is_around(&range),
        entry.kind().is_some(),
    ];
    let false_ones = [
        header.has_bad_flags(),
        header.has_short_tables(208),
        section.intrudes(&range),
        section.reaches_past(132),
        entry.is_local(),
        entry.is_file(),
    ];
    let faults = [fault, load.fault(131, 0)];
    let symbol = (entry.name, entry.value, entry.size);
    let due = [None, Some(ElfFault::Short(131))];
    compare(
        &rt,
        (true_ones, false_ones, faults, symbol),
        ([true; 6], [false; 6], due, (5, 0x10004, 8)),
    );
}

/// An ELF file of one segment, which is the text `li a7, 93`, `li a0, 0` and `ecall` at 0x10000, with one section for it.
const FILE: &[u8; 260] = b"\x7fELF\x02\x01\x01\0\0\0\0\0\0\0\0\0\
\x02\0\xf3\0\x01\0\0\0\0\0\x01\0\0\0\0\0\x40\0\0\0\0\0\0\0\
\x84\0\0\0\0\0\0\0\0\0\0\0\x40\0\x38\0\x01\0\x40\0\x02\0\0\0\
\x01\0\0\0\x07\0\0\0\x78\0\0\0\0\0\0\0\
\0\0\x01\0\0\0\0\0\0\0\x01\0\0\0\0\0\
\x0c\0\0\0\0\0\0\0\x0c\0\0\0\0\0\0\0\x01\0\0\0\0\0\0\0\
\x93\x08\xd0\x05\x13\x05\0\0\x73\0\0\0\
\0\0\0\0\0\0\0\0\0\0\0\0\0\0\0\0\0\0\0\0\0\0\0\0\0\0\0\0\0\0\0\0\
\0\0\0\0\0\0\0\0\0\0\0\0\0\0\0\0\0\0\0\0\0\0\0\0\0\0\0\0\0\0\0\0\
\0\0\0\0\x01\0\0\0\x06\0\0\0\0\0\0\0\0\0\x01\0\0\0\0\0\x78\0\0\0\0\0\0\0\
\x0c\0\0\0\0\0\0\0\0\0\0\0\0\0\0\0\x04\0\0\0\0\0\0\0\0\0\0\0\0\0\0\0";

/// The text.
const TEXT: &[u8; 12] = b"\x93\x08\xd0\x05\x13\x05\0\0\x73\0\0\0";

/// Of the file's image the text's address, its length and the entry; of its one segment the address, the size and whether its bytes are
/// the text; and how many symbols there are.
type Loaded = ([u64; 3], Option<(u64, u64, bool)>, usize);

fn load_file(alloc: Global) -> Result<Loaded, ElfError> {
    let image = load(alloc, FILE)?;
    let segment = match image.segments.as_slice() {
        [it] => Some((it.at, it.size, it.bytes.as_slice() == TEXT.as_slice())),
        _ => None,
    };
    Ok((
        [image.text_at, image.text_len, image.entry],
        segment,
        image.symbols.as_slice().len(),
    ))
}

#[test]
fn one_segment_is_loaded(rt: HostRuntime) {
    compare(
        &rt,
        load_file(rt.alloc()),
        Ok(([0x10000, 12, 0x10000], Some((0x10000, 12, true)), 0)),
    );
}

#[test]
fn a_cut_file_is_short(rt: HostRuntime) {
    let fault = load(rt.alloc(), &FILE[..63]).err();
    compare(&rt, fault, Some(ElfError::Fault(ElfFault::Short(63))));
}
