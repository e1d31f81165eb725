//! What is wrong with a program.

use crate::elf_names::{function_at, header, kind_of};
use crate::source_lines::{add_line, line_at};
use crate::texts::{add, name_text};
use pn_types::NoMemory;
use std::alloc::Global;
use std::str::from_utf8;

/// Adds what a file is that isn't a program for this machine.
fn add_kind(text: &mut String, program: &[u8]) -> Result<(), NoMemory> {
    match header(program) {
        Some(header) => add(text, "{}\n", &[kind_of(&header)]),
        None => Ok(()),
    }
}

/// Adds which code the machine hasn't, where these are the flags of a file.
fn add_flags(text: &mut String, flags: u32) -> Result<(), NoMemory> {
    let compressed = flags & 1 != 0;
    let floating = flags & 6 != 0;
    let code = match (compressed, floating) {
        (true, true) => "compressed and floating-point code",
        (true, false) => "compressed code",
        (false, true) => "floating-point code",
        (false, false) => "code for half the registers (RV32E)",
    };
    add(text, "It has {}.\n", &[code])
}

/// Adds the procedure that has a word at an address.
fn add_procedure(text: &mut String, program: &[u8], address: u64) -> Result<(), NoMemory> {
    match function_at(program, address) {
        Some(name) => add(text, "That is in the procedure '{}'.\n", &[name_text(name)]),
        None => text.push_str("No procedure has that address; `objdump -d` shows what is there.\n"),
    }
}

/// Returns what a text is that isn't an assembly text, if that can be told.
fn kind_of_text(name: &str, program: &str) -> Option<&'static str> {
    if name.ends_with(".c") || program.contains("#include") || program.contains("int main(") {
        Some("That is C, which has to be compiled first, as by `pdcc -o PROGRAM FILE.c`.\n")
    } else if program.contains("include metrics;") {
        Some("That is a configuration: the program comes before it on the command line.\n")
    } else {
        None
    }
}

/// Adds what stands in a line of a text, and what that is.
fn add_text_line(
    alloc: Global,
    text: &mut String,
    name: &str,
    program: &[u8],
    number: usize,
) -> Result<(), NoMemory> {
    let Ok(all) = from_utf8(program) else {
        return text.push_str("It isn't a text, nor an ELF file.\n");
    };
    let Some(line) = line_at(program, number) else {
        return Ok(());
    };
    add_line(alloc, text, line)?;
    if let Some(kind) = kind_of_text(name, all) {
        return text.push_str(kind);
    }
    if name_text(line).contains("//") {
        return text.push_str("Comments of an assembly text begin with #.\n");
    }
    Ok(())
}

/// Adds what a program's bytes tell of a fault of it.
pub(crate) fn add_program(
    alloc: Global,
    text: &mut String,
    fault: &str,
    name: &str,
    program: &[u8],
) -> Result<(), NoMemory> {
    if fault == "not riscv64" {
        return add_kind(text, program);
    }
    let Some((kind, number)) = fault.rsplit_once(' ') else {
        return Ok(());
    };
    let number = number.strip_prefix("0x").unwrap_or(number);
    if kind == "flags" {
        add_flags(text, u32::from_str_radix(number, 16).unwrap_or(0))
    } else if kind == "uses x31 at" {
        add_procedure(text, program, u64::from_str_radix(number, 16).unwrap_or(0))
    } else if kind.ends_with("line") {
        add_text_line(alloc, text, name, program, number.parse().unwrap_or(0))
    } else {
        Ok(())
    }
}
