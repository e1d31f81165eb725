//! The names of files.

ghost use Rattle.std.specs.Prelude.{◌≡◌, Option, Some, None, IfOk, option_map};
ghost use Rattle.std.specs.Option.{option_copied};
ghost use Rattle.elf_form.specs.Symbols.{name_at};
ghost use Rattle.line_table.specs.Meaning.{text_at, numbered, is_absolute, joined, file_name_in, file_name};

use crate::paths::{Path, UnitPaths};
use crate::reading::content_of;
use crate::strings::{StringPlace, name_len};
use pn_types::{NoMemory, Text};
use std::alloc::Global;

/// Returns the text of a string of an ELF file.
#[tactic(auto, unfolding(crate::specs::Meaning::text_at))]
pub fn text_at(elf: &[u8], place: StringPlace) -> &[u8]
    ensures { result.now ≡ text_at elf.now place }
{
    let strings = content_of(elf, place.section);
    let rest = &strings[strings.len().min(place.at as usize)..];
    &rest[..name_len(rest)]
}

/// The directory or file of a number.
fn numbered(version: u16, paths: &[Path], number: u64) -> Option<Path>
    ensures { result ≡ numbered version paths.now number }
{
    if version == 5 {
        paths.get(number as usize).copied()
    } else if number == 0 {
        None
    } else {
        paths.get(number as usize - 1).copied()
    }
}

/// Whether a name begins with `/`.
fn is_absolute(name: &[u8]) -> bool
    ensures { result ≡ is_absolute name.now }
{
    match name {
        [first, ..] => *first == b'/',
        [] => false,
    }
}

/// A name in a directory, where it is in one.
fn joined(alloc: Global, directory: Option<&[u8]>, name: &[u8]) -> Result<Text, NoMemory>
    ensures { IfOk result (λ text. text ≡ joined (option_copied directory.entry) name.now) }
{
    let mut text = Vec::new(alloc);
    if let Some(directory) = directory
        && !is_absolute(name)
    {
        text.extend_from_slice(directory)?;
        text.push(b'/')?;
    }
    text.extend_from_slice(name)?;
    Ok(Text::from_vec(text))
}

impl UnitPaths {
    /// Returns the name of the file of this number, in its directory where that is known.
    ///
    /// # Errors
    ///
    /// `NoMemory` where memory runs out.
    pub fn file_name(
        &self,
        alloc: Global,
        elf: &[u8],
        number: u64,
    ) -> Result<Option<Text>, NoMemory>
        ensures { IfOk result (λ name. name ≡ file_name elf.now self.now number) }
    {
        let Some(file) = numbered(self.version, self.files.as_slice(), number) else {
            return Ok(None);
        };
        let name = text_at(elf, file.name);
        let directory = numbered(self.version, self.directories.as_slice(), file.directory).map(
            |directory| text_at(elf, directory.name),
        );
        Ok(Some(joined(alloc, directory, name)?))
    }
}
