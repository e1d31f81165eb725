//! The files of programs, and what they mean again.

ghost use Rattle.std.specs.Prelude.{◌≤◌, length};

use crate::comparison::compare;
use elf_load::load;
use elf_write::{elf_of_text, loaded_can_be_written, write, written_is_read_again};
use rv_asm::{AsmError, assemble};
use std::alloc::Global;

/// `li a7, 93`, `li a0, 0` and `ecall`.
const TEXT: &[u8] = b"\x93\x08\xd0\x05\x13\x05\0\0\x73\0\0\0";

/// Returns the file of an assembly text.
#[tactic(auto, using(elf_write::proofs::Rooms::strings_room))]
fn written(alloc: Global, text: &[u8]) -> Result<Vec<u8>, AsmError>
    requires { length text.now ≤ 1000 }
{
    let image = assemble(alloc, text)?;
    Ok(write(alloc, &image)?)
}

/// Returns whether these bytes stand at a place of the file.
fn has_at(file: &[u8], at: usize, bytes: &[u8]) -> bool {
    at <= file.len() && file[at..].starts_with(bytes)
}

/// Returns the length of the file of three words, and whether it begins as it must, and has the place of its section headers, the
/// text, and zeros after that.
fn write_words(alloc: Global) -> Result<(usize, [bool; 4]), AsmError> {
    let file = written(alloc, b"li a7, 93\nli a0, 0\necall\n")?;
    let parts = [
        has_at(&file, 0, b"\x7fELF\x02\x01\x01\0"),
        has_at(&file, 40, b"\xa8\0\0\0\0\0\0\0"),
        has_at(&file, 120, TEXT),
        has_at(&file, 132, &[0; 36]),
    ];
    Ok((file.len(), parts))
}

#[test]
fn three_words_are_written(rt: HostRuntime) {
    compare(&rt, write_words(rt.alloc()).ok(), Some((424, [true; 4])));
}

/// Of a text's file, as it is loaded, the text's address, its length and the entry; how many segments there are; and whether the object,
/// its module and the procedure are named as in the text.
fn load_written(alloc: Global) -> Option<([u64; 3], usize, [bool; 3])> {
    let text = b".proc f\nret\n.end\n.module m\n.data\n.object o 2\n.half 7\n";
    let file = elf_of_text(alloc, text).ok()?;
    let image = load(alloc, &file).ok()?;
    let [object, procedure] = image.symbols.as_slice() else {
        return None;
    };
    let names = [
        object.name.bytes() == b"o".as_slice(),
        object.module.bytes() == b"m".as_slice(),
        procedure.name.bytes() == b"f".as_slice(),
    ];
    let places = [image.text_at, image.text_len, image.entry];
    Some((places, image.segments.as_slice().len(), names))
}

#[test]
fn what_is_written_is_loaded(rt: HostRuntime) {
    written_is_read_again();
    loaded_can_be_written();
    compare(
        &rt,
        load_written(rt.alloc()),
        Some(([0x10000, 4, 0x10000], 2, [true; 3])),
    );
}
