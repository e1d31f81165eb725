//! Assembly texts with their programs and their faults.

ghost use Rattle.std.specs.Prelude.{◌<◌, ◌^◌, length};

use crate::comparison::compare;
use pn_types::Image;
use rv_asm::{AsmError, AsmFault, assemble};
use std::alloc::Global;

/// Returns whether the first segment stands at 0x10000 and has these bytes.
fn begins_with(image: &Image, bytes: &[u8]) -> bool {
    match image.segments.as_slice() {
        [segment, ..] => segment.at == 0x10000 && segment.bytes.as_slice() == bytes,
        [] => false,
    }
}

/// Returns whether the text is that of a program with these bytes.
fn has_text(alloc: Global, text: &[u8], bytes: &[u8]) -> bool
    requires { length text.now < 2 ^ 31 }
{
    match assemble(alloc, text) {
        Ok(image) => begins_with(&image, bytes),
        Err(_) => false,
    }
}

#[test]
fn assembles_words(rt: HostRuntime) {
    let three = b"\x93\x08\xd0\x05\x13\x05\x00\x00\x73\x00\x00\x00";
    let two = b"\x0f\0\xf0\x0f\x6f\xf0\xdf\xff";
    let assembled = [
        has_text(rt.alloc(), b"li a7, 93\nli a0, 0\necall\n", three),
        has_text(rt.alloc(), b".word 0 # nothing", b"\0\0\0\0"),
        has_text(rt.alloc(), b"a: fence\r\n\tj a", two),
    ];
    compare(&rt, assembled, [true; 3]);
}

/// Texts of at most 100 bytes, and their faults.
const FAULTY: [(&[u8], AsmFault); 10] = [
    (b"frob x1", AsmFault::BadLine(1)),
    (b".proc f\nret", AsmFault::BadLine(1)),
    (b"nop\n.data\nnop", AsmFault::BadLine(3)),
    (b"addi a0, a0, 4096", AsmFault::BadNumber(1)),
    (b"addi t6, zero, 1", AsmFault::UsesScratch(1)),
    (b"a:\na: nop", AsmFault::TwiceNamed(2)),
    (b"j nowhere", AsmFault::UnknownName(1)),
    (b"nop\nj d\n.data\nd: .byte 1", AsmFault::OutOfReach(2)),
    (b"", AsmFault::NoText),
    (
        b"nop\n.data\n.zero 16777217",
        AsmFault::DataTooLong(16_777_217),
    ),
];

/// Returns the first text that has another fault than the one beside it, or none.
fn first_other<'a>(alloc: Global, rows: &[(&'a [u8], AsmFault)]) -> Option<&'a [u8]> {
    for (text, fault) in rows {
        if text.len() > 100 || assemble(alloc, text).err() != Some(AsmError::Fault(*fault)) {
            return Some(*text);
        }
    }
    None
}

#[test]
fn names_the_first_faulty_line(rt: HostRuntime) {
    compare(&rt, first_other(rt.alloc(), &FAULTY), None);
}

/// Returns whether the data, the name of the object, its module and the name of the procedure are as the text says, and the
/// procedure's size; none where it is refused or has other segments or symbols.
fn place_data_and_symbols(alloc: Global) -> Option<([bool; 4], u64)> {
    let text =
        b"_start: .proc f\nret\n.end\n.module m\n.data\n.object o 2\n.half -1\n.align 2\n.ascii \"a\\n#\"";
    let image = assemble(alloc, text).ok()?;
    let [_, data] = image.segments.as_slice() else {
        return None;
    };
    let [object, procedure] = image.symbols.as_slice() else {
        return None;
    };
    let same = [
        data.bytes.as_slice() == b"\xff\xff\0\0a\n#".as_slice(),
        object.name.bytes() == b"o".as_slice(),
        object.module.bytes() == b"m".as_slice(),
        procedure.name.bytes() == b"f".as_slice(),
    ];
    Some((same, procedure.size))
}

#[test]
fn places_data_and_symbols(rt: HostRuntime) {
    compare(
        &rt,
        place_data_and_symbols(rt.alloc()),
        Some(([true; 4], 4)),
    );
}
