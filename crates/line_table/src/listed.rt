//! The directories and files of a unit of version 4.

ghost use Rattle.std.specs.Prelude.{◌≡◌, ◌≤◌, ◌<◌, length, IfOk};
ghost use Rattle.line_table.specs.Reading.{Means};
ghost use Rattle.line_table.specs.Paths.{details, path_here, listed};

use crate::fault::{LineError, LineFault};
use crate::numbers::uleb;
use crate::paths::Path;
use crate::strings::{StringPlace, string_here};
use std::alloc::Global;

/// The directory or file of a name, with what stands behind it at a place, and the place after that.
fn details(
    is_file: bool,
    name: StringPlace,
    bytes: &[u8],
    at: usize,
) -> Result<(Option<Path>, usize), LineFault>
    requires { at ≤ length bytes.now }
    ensures exact { result ≡ details is_file name bytes.now at }
    ensures within { IfOk result (λ read. (at ≤ read.1) × (read.1 ≤ length bytes.now)) }
{
    if !is_file {
        let path = Path { name, directory: 0 };
        return Ok((Some(path), at));
    }
    let (directory, next) = uleb(bytes, at)?;
    let (_, next) = uleb(bytes, next)?;
    let (_, next) = uleb(bytes, next)?;
    Ok((Some(Path { name, directory }), next))
}

/// The directory or file at a place, or none for an empty name, and the place after it.
#[tactic(auto, unfolding(crate::specs::Paths::path_here))]
fn path_here(is_file: bool, bytes: &[u8], at: usize) -> Result<(Option<Path>, usize), LineFault>
    requires { at ≤ length bytes.now }
    ensures exact { result ≡ path_here is_file bytes.now at }
    ensures within { IfOk result (λ read. (at < read.1) × (read.1 ≤ length bytes.now)) }
{
    let (name, next) = string_here(bytes, at)?;
    if next == at + 1 {
        return Ok((None, next));
    }
    details(is_file, name, bytes, next)
}

/// Returns the directories or files from a place on up to an empty name, and the place after that.
///
/// # Errors
///
/// Out of memory, or the first fault.
pub(crate) fn listed(
    alloc: Global,
    is_file: bool,
    bytes: &[u8],
    at: usize,
) -> Result<(Vec<Path>, usize), LineError>
    requires { at ≤ length bytes.now }
    ensures exact { Means (λ read. (read.0.items, read.1)) result (listed is_file bytes.now at) }
    ensures within { IfOk result (λ read. read.1 ≤ length bytes.now) }
{
    let mut paths = Vec::new(alloc);
    let mut next = at;
    loop {
        let (path, end) = path_here(is_file, bytes, next)?;
        next = end;
        let Some(path) = path else {
            return Ok((paths, next));
        };
        paths.push(path)?;
    }
}
