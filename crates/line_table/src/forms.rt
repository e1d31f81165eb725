//! The values of a directory's or file's entry in version 5.

ghost use Rattle.std.specs.Prelude.{◌≡◌, ◌≤◌, ◌<◌, length, IfOk};
ghost use Rattle.line_table.specs.Paths.{other, number_in, form_value, with_value, no_values, values_from, path_at, format_at};

use crate::fault::{FaultKind, LineFault, fault};
use crate::numbers::{byte_at, doubleword_at, half_at, uleb, word_at};
use crate::paths::Path;
use crate::strings::{StringEnds, StringPlace, StringSection, string_here, string_there};

/// What a value of an entry says, and how it is written.
#[derive(Clone, Copy, Drop)]
pub(crate) struct Format {
    /// The kind of content.
    pub content: u64,
    /// The form.
    pub form: u64,
}

/// A value of an entry.
#[derive(Clone, Copy, Drop)]
pub(crate) enum FormValue {
    /// A number.
    Number(u64),
    /// A string.
    Name(StringPlace),
    /// Bytes that are neither.
    Other,
}

/// What an entry says so far.
#[derive(Clone, Copy, Drop)]
pub(crate) struct Entry {
    /// The name.
    pub name: Option<StringPlace>,
    /// The number of the directory.
    pub directory: u64,
}

/// Returns the format at a place, and the place after it.
///
/// # Errors
///
/// Its first fault.
#[tactic(auto, unfolding(crate::specs::Paths::format_at))]
pub(crate) fn format_at(bytes: &[u8], at: usize) -> Result<(Format, usize), LineFault>
    ensures exact { result ≡ format_at bytes.now at }
    ensures within { IfOk result (λ read. read.1 ≤ length bytes.now) }
{
    let (content, next) = uleb(bytes, at)?;
    let (form, next) = uleb(bytes, next)?;
    Ok((Format { content, form }, next))
}

/// A number of bytes that don't count.
fn other(bytes: &[u8], at: usize, count: u64) -> Result<(FormValue, usize), LineFault>
    requires { at ≤ length bytes.now }
    ensures exact { result ≡ other count bytes.now at }
    ensures within { IfOk result (λ read. (at ≤ read.1) × (read.1 ≤ length bytes.now)) }
{
    let left = (bytes.len() - at) as u64;
    if left < count {
        return Err(fault(at, FaultKind::Truncated));
    }
    Ok((FormValue::Other, at + count as usize))
}

/// The value at a place in its form, and the place after it.
#[tactic(auto, unfolding(crate::specs::Paths::form_value))]
fn form_value(
    ends: &StringEnds,
    form: u64,
    bytes: &[u8],
    at: usize,
) -> Result<(FormValue, usize), LineFault>
    requires { at ≤ length bytes.now }
    ensures exact { result ≡ form_value ends.now form bytes.now at }
    ensures within { IfOk result (λ read. (at ≤ read.1) × (read.1 ≤ length bytes.now)) }
{
    match form {
        0x08 => {
            let (place, next) = string_here(bytes, at)?;
            Ok((FormValue::Name(place), next))
        }
        0x1f => {
            let (place, next) = string_there(StringSection::LineStr, ends.line_str, bytes, at)?;
            Ok((FormValue::Name(place), next))
        }
        0x0e => {
            let (place, next) = string_there(StringSection::Str, ends.str, bytes, at)?;
            Ok((FormValue::Name(place), next))
        }
        0x1e => other(bytes, at, 16),
        0x09 => {
            let (count, next) = uleb(bytes, at)?;
            other(bytes, next, count)
        }
        _ => number_value(form, bytes, at),
    }
}

/// The number at a place in its form, and the place after it.
fn number_value(form: u64, bytes: &[u8], at: usize) -> Result<(FormValue, usize), LineFault>
    requires { at ≤ length bytes.now }
    ensures exact { result ≡ number_in form bytes.now at }
    ensures within { IfOk result (λ read. (at ≤ read.1) × (read.1 ≤ length bytes.now)) }
{
    let (number, next) = match form {
        0x0f => uleb(bytes, at)?,
        0x0b => {
            let (number, next) = byte_at(bytes, at)?;
            (number as u64, next)
        }
        0x05 => {
            let (number, next) = half_at(bytes, at)?;
            (number as u64, next)
        }
        0x06 => {
            let (number, next) = word_at(bytes, at)?;
            (number as u64, next)
        }
        0x07 => doubleword_at(bytes, at)?,
        _ => return Err(fault(at, FaultKind::BadForm)),
    };
    Ok((FormValue::Number(number), next))
}

/// An entry with one value more, which stands at a place.
fn with_value(entry: &Entry, content: u64, value: &FormValue, at: usize) -> Result<Entry, LineFault>
    ensures { result ≡ with_value entry.now content value.now at }
{
    match (content, *value) {
        (1, FormValue::Name(place)) => Ok(Entry {
            name: Some(place),
            ..*entry
        }),
        (2, FormValue::Number(directory)) => Ok(Entry {
            directory,
            ..*entry
        }),
        (1 | 2, _) => Err(fault(at, FaultKind::BadForm)),
        _ => Ok(*entry),
    }
}

/// What the values from a place on say in these formats, and the place after them.
fn entry_at(
    ends: &StringEnds,
    formats: &[Format],
    bytes: &[u8],
    at: usize,
) -> Result<(Entry, usize), LineFault>
    requires { at ≤ length bytes.now }
    ensures exact { result ≡ values_from ends.now formats.now bytes.now no_values at }
    ensures within { IfOk result (λ read. (at ≤ read.1) × (read.1 ≤ length bytes.now)) }
{
    let mut entry = Entry {
        name: None,
        directory: 0,
    };
    let mut next = at;
    for format in formats {
        let (value, end) = form_value(ends, format.form, bytes, next)?;
        entry = with_value(&entry, format.content, &value, next)?;
        next = end;
    }
    Ok((entry, next))
}

/// The directory or file at a place, and the place after it.
#[tactic(auto, unfolding(crate::specs::Paths::path_at))]
pub(crate) fn path_at(
    ends: &StringEnds,
    formats: &[Format],
    bytes: &[u8],
    at: usize,
) -> Result<(Path, usize), LineFault>
    requires { at ≤ length bytes.now }
    ensures exact { result ≡ path_at ends.now formats.now bytes.now at }
    ensures within { IfOk result (λ read. (at ≤ read.1) × (read.1 ≤ length bytes.now)) }
{
    let (entry, next) = entry_at(ends, formats, bytes, at)?;
    match entry.name {
        None => Err(fault(at, FaultKind::BadForm)),
        Some(name) => {
            let path = Path {
                name,
                directory: entry.directory,
            };
            Ok((path, next))
        }
    }
}
