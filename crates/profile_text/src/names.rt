//! How procedures are named.

ghost use Rattle.std.specs.Prelude.{◌≡◌, ◌++◌, ◌==◌, OnOk};
ghost use Rattle.std.specs.List.{list_any};
ghost use Rattle.std.specs.Str.{bytes_eq};
ghost use Rattle.profile_text.specs.Finding.{DoAscend};
ghost use Rattle.profile_text.specs.Names.{is_named, owner_text, path_of, target_text};

use crate::finding::{procedure_at, procedure_from};
use pn_types::{NoMemory, Proc};
use std::alloc::Global;

/// Adds `MODULE/NAME`.
pub fn add_path(out: &mut Vec<u8>, proc: &Proc) -> Result<(), NoMemory>
    ensures { OnOk result (out.new.items ≡ out.old.items ++ path_of proc.now) }
{
    out.extend_from_slice(proc.module.bytes())?;
    out.extend_from_slice(b"/")?;
    out.extend_from_slice(proc.name.bytes())
}

/// Adds the name of the procedure that has the word at an address, or `-`.
pub fn add_owner(out: &mut Vec<u8>, procs: &[Proc], at: u64) -> Result<(), NoMemory>
    requires { DoAscend procs.now }
    ensures { OnOk result (out.new.items ≡ out.old.items ++ owner_text procs.now at) }
{
    match procedure_at(procs, at) {
        Some(proc) => add_path(out, proc),
        None => out.extend_from_slice(b"-"),
    }
}

/// Adds the name of the procedure that starts at an address, or else the address.
pub fn add_target(alloc: Global, out: &mut Vec<u8>, procs: &[Proc], at: u64) -> Result<(), NoMemory>
    requires { DoAscend procs.now }
    ensures { OnOk result (out.new.items ≡ out.old.items ++ target_text procs.now at) }
{
    match procedure_from(procs, at) {
        Some(proc) => add_path(out, proc),
        None => out.extend_from_slice(format!(in alloc; "0x{at:x}")?.as_bytes()),
    }
}

/// Returns whether a text is `MODULE/NAME` of a procedure.
fn is_path(proc: &Proc, text: &[u8]) -> bool
    ensures { result ≡ bytes_eq (path_of proc.now) text.now }
{
    let Some(rest) = text.strip_prefix(proc.module.bytes()) else {
        return false;
    };
    let Some(name) = rest.strip_prefix(b"/") else {
        return false;
    };
    name == proc.name.bytes()
}

/// Returns whether a text is the name of a procedure, with its module or without.
pub fn is_named(proc: &Proc, name: &str) -> bool
    ensures { result ≡ is_named name.now proc.now }
{
    proc.name.bytes() == name.as_bytes() || is_path(proc, name.as_bytes())
}

/// Returns whether a text is the name of one of these procedures, with its module or without.
pub fn has_procedure(procs: &[Proc], name: &str) -> bool
    ensures { result ≡ list_any (is_named name.now) procs.now }
{
    procs.iter().any(|proc| is_named(proc, name))
}
