//! The lines of a profile by their first words.

ghost use Rattle.std.specs.Prelude.{◌≡◌, ◌++◌, ◌∷◌, [], IfOk, OnOk, map};
ghost use Rattle.pn_text.specs.Bytes.{begins_with};
ghost use Rattle.profile_reader.specs.Lines.{first_with, is_other, lines_of, lines_with, other_lines};

use pn_types::NoMemory;
use std::alloc::Global;

/// Returns the lines, each without its LF, and what stands behind the last.
pub(crate) fn lines_of(alloc: Global, bytes: &[u8]) -> Result<Vec<&[u8]>, NoMemory>
    ensures { IfOk result (λ lines. map (λ line. line.now) lines.items ≡ lines_of bytes.now) }
{
    bytes.split(|byte| *byte == b'\n').collect(alloc)
}

/// Returns whether a line begins with a text.
fn begins(line: &[u8], text: &[u8]) -> bool
    ensures { result ≡ begins_with text.now line.now }
{
    line.starts_with(text)
}

/// Returns those lines that begin with a text.
pub(crate) fn lines_with<'a>(
    alloc: Global,
    text: &[u8],
    lines: &[&'a [u8]],
) -> Result<Vec<&'a [u8]>, NoMemory>
    ensures { IfOk result (λ found. map (λ line. line.now) found.items ≡ lines_with text.now (map (λ line. line.now) lines.now)) }
{
    let mut found = Vec::new(alloc);
    for line in lines {
        if begins(line, text) {
            found.push(*line)?;
        }
    }
    Ok(found)
}

/// Returns the first line that begins with a text, or an empty one.
pub(crate) fn first_with<'a>(text: &[u8], lines: &[&'a [u8]]) -> &'a [u8]
    ensures { result.now ≡ first_with text.now (map (λ line. line.now) lines.now) }
{
    for line in lines {
        if begins(line, text) {
            return line;
        }
    }
    &[]
}

/// Returns whether a line is of a call, a loop or a word.
fn is_other(line: &[u8]) -> bool
    ensures { result ≡ is_other line.now }
{
    begins(line, b"call ") || begins(line, b"loop ") || begins(line, b"word ")
}

/// Adds a line and its LF.
fn add_line(text: &mut Vec<u8>, line: &[u8]) -> Result<(), NoMemory>
    ensures { OnOk result (text.new.items ≡ text.old.items ++ (line.now ++ 10 ∷ [])) }
{
    text.extend_from_slice(line)?;
    text.push(b'\n')?;
    Ok(())
}

/// Returns the lines of calls, loops and words as they are, each with its LF.
pub(crate) fn other_lines(alloc: Global, lines: &[&[u8]]) -> Result<Vec<u8>, NoMemory>
    ensures { IfOk result (λ text. text.items ≡ other_lines (map (λ line. line.now) lines.now)) }
{
    let mut text = Vec::new(alloc);
    for line in lines {
        if is_other(line) {
            add_line(&mut text, line)?;
        }
    }
    Ok(text)
}
