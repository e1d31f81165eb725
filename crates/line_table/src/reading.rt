//! Reading the line table of a file, and the names of its directories and files.

ghost use Rattle.std.specs.Prelude.{◌≡◌};
ghost use Rattle.line_table.specs.Reading.{Means};
ghost use Rattle.line_table.specs.Meaning.{section_name, content_of, meaning_of, ends_of, paths_meaning};

use crate::fault::LineError;
use crate::paths::{UnitPaths, paths_of};
use crate::program::rows_of;
use crate::registers::LineTable;
use crate::sections::section_named;
use crate::strings::{StringEnds, StringSection, ended_len};
use pn_types::Seq;
use std::alloc::Global;

/// The name of a section, with the zero byte that ends it.
fn section_name(section: StringSection) -> &'static [u8]
    ensures { result.now ≡ section_name «section» }
{
    match section {
        StringSection::Line => b".debug_line\0",
        StringSection::LineStr => b".debug_line_str\0",
        StringSection::Str => b".debug_str\0",
    }
}

/// The content of a section, which is empty where there is none.
pub(crate) fn content_of(elf: &[u8], section: StringSection) -> &[u8]
    ensures { result.now ≡ content_of elf.now «section» }
{
    match section_named(elf, section_name(section)) {
        Some(content) => content,
        None => &[],
    }
}

/// Returns the line table of an ELF file, where it has a section `.debug_line`.
///
/// # Errors
///
/// Out of memory, or the first fault of the line table: of its units in their order, of each its header and then its
/// operations.
#[tactic(auto, unfolding(crate::specs::Meaning::meaning_of))]
pub fn read_line_table(alloc: Global, elf: &[u8]) -> Result<Option<LineTable>, LineError>
    ensures { Means (λ table. table) result (meaning_of elf.now) }
{
    let Some(bytes) = section_named(elf, section_name(StringSection::Line)) else {
        return Ok(None);
    };
    let rows = rows_of(alloc, bytes)?;
    Ok(Some(LineTable {
        rows: Seq::from_vec(rows),
    }))
}

/// How many bytes of an ELF file's sections of strings there are up to the last zero byte.
fn ends_of(elf: &[u8]) -> StringEnds
    ensures { result ≡ ends_of elf.now }
{
    StringEnds {
        line_str: ended_len(content_of(elf, StringSection::LineStr)),
        str: ended_len(content_of(elf, StringSection::Str)),
    }
}

/// Returns the directories and files of the units of an ELF file, where it has a section `.debug_line`.
///
/// # Errors
///
/// Out of memory, or the first fault: of the units in their order, of each its header and then its directories and files.
#[tactic(auto, unfolding(crate::specs::Meaning::paths_meaning))]
pub fn read_paths(alloc: Global, elf: &[u8]) -> Result<Option<Seq<UnitPaths>>, LineError>
    ensures { Means (λ units. units) result (paths_meaning elf.now) }
{
    let Some(bytes) = section_named(elf, section_name(StringSection::Line)) else {
        return Ok(None);
    };
    let units = paths_of(alloc, &ends_of(elf), bytes)?;
    Ok(Some(Seq::from_vec(units)))
}
