//! What a line says.

ghost use Rattle.std.specs.Prelude.{◌≡◌, ◌<◌, ◌≤◌, IfOk, IfSome, length, map};
ghost use Rattle.std.specs.Option.{option_map};
ghost use Rattle.rv_asm.specs.Parsing.{quoting_after, starts_comment, code_len, label_at, labels_of, is_parted, statement_at, body_of, line_of};
ghost use Rattle.rv_asm.specs.Seen.{line_seen};
ghost use Rattle.rv_asm.specs.declared.line.Quoting.TheVariants.{Outside};

use crate::named::operation;
use crate::statement::Statement;
use crate::token::{is_name, skip_blanks, word};
use std::alloc::{AllocError, Global};

/// Whether a byte of a line stands in a string.
#[derive(Clone, Copy)]
enum Quoting {
    /// Outside a string.
    Outside,
    /// In a string.
    Quoted,
    /// In a string, after a backslash.
    Escaped,
}

/// A line: its labels, and its statement with the name or the string that it has.
#[derive(Drop)]
pub(crate) struct ParsedLine<'a> {
    pub(crate) labels: Vec<&'a [u8]>,
    pub(crate) statement: Statement,
    pub(crate) text: &'a [u8],
}

impl Quoting {
    /// What holds after the byte.
    fn after(self, byte: u8) -> Quoting
        ensures { result ≡ quoting_after self byte }
    {
        match self {
            Quoting::Outside => if byte == b'"' {
                Quoting::Quoted
            } else {
                Quoting::Outside
            },
            Quoting::Quoted => match byte {
                b'"' => Quoting::Outside,
                b'\\' => Quoting::Escaped,
                _ => Quoting::Quoted,
            },
            Quoting::Escaped => Quoting::Quoted,
        }
    }

    /// Whether the byte begins a comment.
    fn starts_comment(self, byte: u8) -> bool
        ensures { result ≡ starts_comment self byte }
    {
        match self {
            Quoting::Outside => byte == b'#',
            Quoting::Quoted | Quoting::Escaped => false,
        }
    }
}

/// How many bytes stand before the comment.
fn code_len(line: &[u8]) -> usize
    ensures len { result ≡ code_len Outside line.now }
    ensures within { result ≤ length line.now }
{
    let mut quoting = Quoting::Outside;
    for (i, byte) in line.iter().enumerate() {
        if quoting.starts_comment(*byte) {
            return i;
        }
        quoting = quoting.after(*byte);
    }
    line.len()
}

/// The bytes before the comment, without blanks first.
#[tactic(auto, unfolding(crate::specs::Parsing::body_of))]
fn body(line: &[u8]) -> &[u8]
    ensures { result.now ≡ body_of line.now }
{
    skip_blanks(&line[..code_len(line)])
}

/// A label, and what stands after it.
#[tactic(auto, unfolding(crate::specs::Parsing::label_at))]
fn label(text: &[u8]) -> Option<(&[u8], &[u8])>
    ensures label { option_map (λ found. (found.0.now, found.1.now)) result ≡ label_at text.now }
    ensures shorter { IfSome result (λ found. length found.1.now < length text.now) }
{
    let (name, rest) = word(text);
    let (first, rest) = rest.split_first()?;
    if *first == b':' && is_name(name) {
        Some((name, skip_blanks(rest)))
    } else {
        None
    }
}

/// The labels, and what stands after them.
fn labels<'a>(alloc: Global, text: &'a [u8]) -> Result<(Vec<&'a [u8]>, &'a [u8]), AllocError>
    ensures { IfOk result (λ found. (map (λ label. label.now) found.0.items, found.1.now) ≡ labels_of text.now) }
{
    let mut names = Vec::new(alloc);
    let mut rest = text;
    'labels: while let Some((name, behind)) = label(rest) {
        names.push(name)?;
        rest = behind;
    }
    Ok((names, rest))
}

/// Whether nothing or a blank stands first.
fn is_parted(text: &[u8]) -> bool
    ensures { result ≡ is_parted text.now }
{
    match text.first() {
        Some(byte) => *byte == b' ' || *byte == b'\t',
        None => true,
    }
}

/// The statement after the labels, with the name or the string that it has. None where it has no form.
#[tactic(auto, unfolding(crate::specs::Parsing::statement_at))]
fn statement(text: &[u8]) -> Option<(Statement, &[u8])>
    ensures { option_map (λ found. (found.0, found.1.now)) result ≡ statement_at text.now }
{
    if text.is_empty() {
        return Some((Statement::Empty, &[]));
    }
    let (name, rest) = word(text);
    if is_parted(rest) {
        operation(name, rest)
    } else {
        None
    }
}

/// The line that these bytes are. None where they have no form.
#[tactic(auto, unfolding(crate::specs::Parsing::line_of))]
pub(crate) fn parse<'a>(alloc: Global, line: &'a [u8]) -> Result<Option<ParsedLine<'a>>, AllocError>
    ensures { IfOk result (λ found. option_map line_seen found ≡ line_of line.now) }
{
    let (labels, rest) = labels(alloc, body(line))?;
    match statement(rest) {
        Some((statement, text)) => Ok(Some(ParsedLine {
            labels,
            statement,
            text,
        })),
        None => Ok(None),
    }
}
