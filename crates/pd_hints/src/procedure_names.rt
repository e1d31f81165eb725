//! The procedure that somebody may have meant.

use crate::contents::inputs_of;
use crate::nearest::add_unknown;
use crate::program_names::proc_name;
use code_points::procedures;
use pn_types::NoMemory;
use refusals::Refusal;
use std::alloc::{AllocError, Global};

/// Adds that no procedure of a program has a name, which may have that of a module in front, and which procedure may be meant.
pub(crate) fn add_unknown_procedure(
    alloc: Global,
    text: &mut String,
    path: &str,
    program: &[u8],
) -> Result<(), NoMemory> {
    let inputs = match inputs_of(alloc, program, b"") {
        Ok(inputs) => inputs,
        Err(Refusal::NoMemory) => return Err(AllocError),
        Err(Refusal::Fault(_)) => return Ok(()),
    };
    let (procs, _) = procedures(alloc, &inputs.image)?;
    let names: Vec<&str> = procs.iter().map(proc_name).collect(alloc)?;
    let name = path.rsplit_once('/').map_or(path, |parts| parts.1);
    add_unknown(alloc, text, "procedure", name, &names)
}
