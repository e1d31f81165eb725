//! The directories and files of units.

ghost use Rattle.std.specs.Prelude.{◌≡◌, ◌≤◌, ◌<◌, length, IfOk};
ghost use Rattle.line_table.specs.Reading.{many, Means};
ghost use Rattle.line_table.specs.Paths.{format_at, path_at, path_table, paths_at, unit_paths, paths_of};
ghost use Rattle.line_table.specs.Checks.{FitsPaths};

use crate::fault::LineError;
use crate::forms::{Format, format_at, path_at};
use crate::listed::listed;
use crate::numbers::{byte_at, uleb};
use crate::strings::{StringEnds, StringPlace};
use crate::unit::{UnitHeader, header};
use pn_types::Seq;
use std::alloc::Global;

/// A directory or file.
#[derive(Clone, Copy, Debug, PartialEq, Eq, Drop)]
pub struct Path {
    /// Where its name is.
    pub name: StringPlace,
    /// The number of the directory that a file is in; it doesn't count for a directory.
    pub directory: u64,
}

/// The directories and files of a unit.
#[derive(Drop)]
pub struct UnitPaths {
    /// Where the unit's header is, in bytes from the front of `.debug_line`.
    pub unit: u64,
    /// The version, 4 or 5: in version 4 the numbers of directories and files begin at 1, in version 5 at 0.
    pub version: u16,
    /// The directories, in the order of their numbers.
    pub directories: Seq<Path>,
    /// The files, in the order of their numbers.
    pub files: Seq<Path>,
}

/// A number of formats from a place on, and the place after them.
fn formats_of(
    alloc: Global,
    bytes: &[u8],
    at: usize,
    count: u8,
) -> Result<(Vec<Format>, usize), LineError>
    requires { at ≤ length bytes.now }
    ensures exact { Means (λ read. (read.0.items, read.1)) result (many (format_at bytes.now) count at) }
    ensures within { IfOk result (λ read. read.1 ≤ length bytes.now) }
{
    let mut formats = Vec::new(alloc);
    let mut next = at;
    for _ in 0..count {
        let (format, end) = format_at(bytes, next)?;
        formats.push(format)?;
        next = end;
    }
    Ok((formats, next))
}

/// A number of entries from a place on, and the place after them.
fn paths_in(
    alloc: Global,
    ends: &StringEnds,
    formats: &[Format],
    bytes: &[u8],
    at: usize,
    count: u64,
) -> Result<(Vec<Path>, usize), LineError>
    requires { at ≤ length bytes.now }
    ensures exact { Means (λ read. (read.0.items, read.1)) result (many (path_at ends.now formats.now bytes.now) count at) }
    ensures within { IfOk result (λ read. read.1 ≤ length bytes.now) }
{
    let mut paths = Vec::new(alloc);
    let mut next = at;
    for _ in 0..count {
        let (path, end) = path_at(ends, formats, bytes, next)?;
        paths.push(path)?;
        next = end;
    }
    Ok((paths, next))
}

/// The table of directories or files at a place in version 5, and the place after it.
#[tactic(auto, unfolding(crate::specs::Paths::path_table))]
fn path_table(
    alloc: Global,
    ends: &StringEnds,
    bytes: &[u8],
    at: usize,
) -> Result<(Vec<Path>, usize), LineError>
    requires { at ≤ length bytes.now }
    ensures exact { Means (λ read. (read.0.items, read.1)) result (path_table ends.now bytes.now at) }
    ensures within { IfOk result (λ read. read.1 ≤ length bytes.now) }
{
    let (format_count, next) = byte_at(bytes, at)?;
    let (formats, next) = formats_of(alloc, bytes, next, format_count)?;
    let (count, next) = uleb(bytes, next)?;
    paths_in(alloc, ends, &formats, bytes, next, count)
}

/// The directories, or the files, of a unit of a version, and the place after them.
fn paths_at(
    alloc: Global,
    version: u16,
    ends: &StringEnds,
    is_file: bool,
    bytes: &[u8],
    at: usize,
) -> Result<(Vec<Path>, usize), LineError>
    requires { at ≤ length bytes.now }
    ensures exact { Means (λ read. (read.0.items, read.1)) result (paths_at version ends.now is_file bytes.now at) }
    ensures within { IfOk result (λ read. read.1 ≤ length bytes.now) }
{
    if version == 5 {
        path_table(alloc, ends, bytes, at)
    } else {
        listed(alloc, is_file, bytes, at)
    }
}

/// The directories and files of a unit. The bytes end as its program begins.
#[tactic(auto, unfolding(crate::specs::Paths::unit_paths))]
fn unit_paths(
    alloc: Global,
    header: &UnitHeader,
    ends: &StringEnds,
    bytes: &[u8],
) -> Result<UnitPaths, LineError>
    requires { FitsPaths (length bytes.now) header.now }
    ensures { Means (λ paths. paths) result (unit_paths header.now ends.now bytes.now) }
{
    let (directories, next) = paths_at(alloc, header.version, ends, false, bytes, header.tables())?;
    let (files, _) = paths_at(alloc, header.version, ends, true, bytes, next)?;
    Ok(UnitPaths {
        unit: header.at as u64,
        version: header.version,
        directories: Seq::from_vec(directories),
        files: Seq::from_vec(files),
    })
}

/// Returns the directories and files of all units.
///
/// # Errors
///
/// Out of memory, or the first fault.
pub(crate) fn paths_of(
    alloc: Global,
    ends: &StringEnds,
    bytes: &[u8],
) -> Result<Vec<UnitPaths>, LineError>
    ensures { Means (λ units. units.items) result (paths_of ends.now bytes.now) }
{
    let mut units = Vec::new(alloc);
    let mut at = 0;
    while at < bytes.len() {
        let header = header(bytes, at)?;
        units.push(unit_paths(alloc, &header, ends, &bytes[..header.program])?)?;
        at = header.end;
    }
    Ok(units)
}
