//! Lines of words, and how they are written.

ghost use Rattle.std.specs.Prelude.{◌≡◌, ◌++◌, [], map, OnOk, if◌then◌else◌};
ghost use Rattle.pn_text.specs.Signs.{sign_text};
ghost use Rattle.pn_text.specs.Writing.{word_text};
ghost use Rattle.mdl_parse.specs.Gives.{word_seen};
ghost use Rattle.mdl_parse.specs.Printing.{gap, text_after, words_text, indent, line_text, close_line};

use crate::gaps::stand_close;
use crate::seen::Seen;
use pn_text::Sign;
use pn_types::NoMemory;
use std::alloc::Global;
use std::marker::Model;

/// The words of a line that is to be written.
#[derive(Drop)]
pub(crate) struct Line<'a> {
    words: Vec<Seen<'a>>,
}

impl<'a> Model for Line<'a> {
    ghost use Rattle.std.specs.Prelude.{List, map};
    ghost use Rattle.pn_text.specs.Words.{Word};
    ghost use Rattle.mdl_parse.specs.Gives.{word_seen};

    ghost Value = { List Word };

    ghost view = { λ l. map word_seen l.words.items };
}

/// How a sign is written.
fn sign_text(sign: Sign) -> &'static [u8]
    ensures { result.now ≡ sign_text sign }
{
    match sign {
        Sign::OpenBrace => b"{",
        Sign::CloseBrace => b"}",
        Sign::OpenBracket => b"[",
        Sign::CloseBracket => b"]",
        Sign::OpenParen => b"(",
        Sign::CloseParen => b")",
        Sign::OpenCode => b"(*",
        Sign::CloseCode => b"*)",
        Sign::Semicolon => b";",
        Sign::Comma => b",",
        Sign::PlusPlus => b"++",
        Sign::MinusMinus => b"--",
        Sign::Assign => b"=",
        Sign::Equal => b"==",
        Sign::NotEqual => b"!=",
        Sign::Less => b"<",
        Sign::LessEqual => b"<=",
        Sign::Greater => b">",
        Sign::GreaterEqual => b">=",
    }
}

/// Adds bytes.
fn add(out: &mut Vec<u8>, bytes: &[u8]) -> Result<(), NoMemory>
    ensures { OnOk result (out.new.items ≡ out.old.items ++ bytes.now) }
{
    out.extend_from_slice(bytes)
}

/// Adds the text of a word.
fn add_word(alloc: Global, out: &mut Vec<u8>, word: Seen) -> Result<(), NoMemory>
    ensures { OnOk result (out.new.items ≡ out.old.items ++ word_text (word_seen word.entry)) }
{
    match word {
        Seen::Name(text) => add(out, text),
        Seen::Number(number) => {
            let text = format!(in alloc; "{number}")?;
            add(out, text.as_bytes())
        }
        Seen::Quoted(text) => {
            add(out, b"\"")?;
            add(out, text)?;
            add(out, b"\"")
        }
        Seen::Path(text) => add(out, text),
        Seen::DollarFocus => add(out, b"$focus"),
        Seen::DollarAll => add(out, b"$all"),
        Seen::DollarMetric => add(out, b"$metric"),
        Seen::DollarValue => add(out, b"$value"),
        Seen::DollarArg => add(out, b"$arg"),
        Seen::Sign(sign) => add(out, sign_text(sign)),
    }
}

/// Adds what stands between two words.
#[tactic(auto, unfolding(crate::specs::Printing::gap))]
fn add_gap(out: &mut Vec<u8>, left: Seen, right: Seen) -> Result<(), NoMemory>
    ensures { OnOk result (out.new.items ≡ out.old.items ++ gap (word_seen left.entry) (word_seen right.entry)) }
{
    if stand_close(left, right) {
        return Ok(());
    }
    add(out, b" ")
}

/// Adds the word that stands after another.
fn add_next(alloc: Global, out: &mut Vec<u8>, left: Seen, word: Seen) -> Result<(), NoMemory>
    ensures { OnOk result (out.new.items
        ≡ out.old.items ++ (gap (word_seen left.entry) (word_seen word.entry) ++ word_text (word_seen word.entry))) }
{
    add_gap(out, left, word)?;
    add_word(alloc, out, word)
}

/// Adds the words that stand after a word.
fn add_behind(alloc: Global, out: &mut Vec<u8>, first: Seen, words: &[Seen]) -> Result<(), NoMemory>
    ensures { OnOk result (out.new.items ≡ out.old.items ++ text_after (word_seen first.entry) (map word_seen words.now)) }
{
    let mut left = first;
    for word in words {
        add_next(alloc, out, left, *word)?;
        left = *word;
    }
    Ok(())
}

/// Adds words.
fn add_words(alloc: Global, out: &mut Vec<u8>, words: &[Seen]) -> Result<(), NoMemory>
    ensures { OnOk result (out.new.items ≡ out.old.items ++ words_text (map word_seen words.now)) }
{
    match words.split_first() {
        Some((first, others)) => {
            add_word(alloc, out, *first)?;
            add_behind(alloc, out, *first, others)
        }
        None => Ok(()),
    }
}

/// Adds two spaces for each level.
fn add_indent(out: &mut Vec<u8>, level: usize) -> Result<(), NoMemory>
    ensures { OnOk result (out.new.items ≡ out.old.items ++ indent level) }
{
    'levels: for _ in 0..level {
        add(out, b"  ")?;
    }
    Ok(())
}

/// Adds a line of these words.
#[tactic(auto, unfolding(crate::specs::Printing::line_text))]
pub(crate) fn add_line(
    alloc: Global,
    out: &mut Vec<u8>,
    level: usize,
    words: &[Seen],
) -> Result<(), NoMemory>
    ensures { OnOk result (out.new.items ≡ out.old.items ++ line_text (level, map word_seen words.now)) }
{
    add_indent(out, level)?;
    add_words(alloc, out, words)?;
    add(out, b"\n")
}

/// Adds the line of a closing brace.
pub(crate) fn add_close(alloc: Global, out: &mut Vec<u8>, level: usize) -> Result<(), NoMemory>
    ensures { OnOk result (out.new.items ≡ out.old.items ++ line_text (close_line level)) }
{
    add_line(alloc, out, level, &[Seen::Sign(Sign::CloseBrace)])
}

/// One of two keywords.
pub(crate) fn one_of(is_one: bool, one: &'static [u8], other: &'static [u8]) -> &'static [u8]
    ensures { result.now ≡ (if is_one then one.now else other.now) }
{
    if is_one { one } else { other }
}

impl<'a> Line<'a> {
    /// A line without words.
    pub(crate) fn new(alloc: Global) -> Line<'a>
        ensures { result ≡ [] }
    {
        Line {
            words: Vec::new(alloc),
        }
    }

    /// Adds words.
    pub(crate) fn add(&mut self, words: &[Seen<'a>]) -> Result<(), NoMemory>
        ensures { OnOk result (self.new ≡ self.old ++ map word_seen words.now) }
    {
        self.words.extend_from_slice(words)
    }

    /// Writes the line.
    pub(crate) fn write(
        &self,
        alloc: Global,
        out: &mut Vec<u8>,
        level: usize,
    ) -> Result<(), NoMemory>
        ensures { OnOk result (out.new.items ≡ out.old.items ++ line_text (level, self.now)) }
    {
        add_line(alloc, out, level, self.words.as_slice())
    }
}
