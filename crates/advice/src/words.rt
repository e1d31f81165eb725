//! The words of a line, and what each may be.

ghost use Rattle.std.specs.Prelude.{◌≡◌, ◌≤◌, bytes_eq, length};
ghost use Rattle.std.specs.List.{list_all};
ghost use Rattle.pn_text.specs.Bytes.{begins_name, is_name_byte};
ghost use Rattle.pn_text.specs.Numbers.{decimal_from, is_digit};
ghost use Rattle.pn_text.specs.Words.{is_name};
ghost use Rattle.advice.specs.Words.{are_names, has_form, is_as, is_branch, is_focus, number_at, decimal_number, word_at};

use crate::pieces::Pieces;
use pn_types::is_good_name;

/// The greatest number of digits of a number.
const MOST_DIGITS: usize = 20;

/// Returns whether a word is this text.
pub fn says(word: &[u8], text: &[u8]) -> bool
    ensures { result ≡ bytes_eq word.now text.now }
{
    word == text
}

fn is_digit(byte: u8) -> bool
    ensures { result ≡ is_digit byte }
{
    byte.is_ascii_digit()
}

/// The number of these digits, or None where a byte is no digit.
fn decimal(digits: &[u8]) -> Option<u128>
    requires { length digits.now ≤ 20 }
    ensures { result ≡ decimal_from 0 digits.now }
{
    let mut value = 0u128;
    for byte in digits {
        if !is_digit(*byte) {
            return None;
        }
        value = value * 10 + (*byte - b'0') as u128;
    }
    Some(value)
}

/// Returns the number that a word spells, with 1 to 20 digits, if it is below 2^64.
pub fn decimal_number(word: &[u8]) -> Option<u64>
    ensures { result ≡ decimal_number word.now }
{
    if word.is_empty() || word.len() > MOST_DIGITS {
        return None;
    }
    let value = decimal(word)?;
    if value <= u64::MAX as u128 {
        Some(value as u64)
    } else {
        None
    }
}

fn begins_name(byte: u8) -> bool
    ensures { result ≡ begins_name byte }
{
    byte.is_ascii_alphabetic() || byte == b'_'
}

fn is_name_byte(byte: u8) -> bool
    ensures { result ≡ is_name_byte byte }
{
    begins_name(byte) || is_digit(byte) || byte == b'.'
}

fn has_name_bytes(bytes: &[u8]) -> bool
    ensures { result ≡ list_all is_name_byte bytes.now }
{
    bytes.iter().all(|byte| is_name_byte(*byte))
}

/// Whether a word is a name: a letter or `_`, and then letters, digits, `_` and `.`.
fn is_name(word: &[u8]) -> bool
    ensures { result ≡ is_name word.now }
{
    let Some((first, rest)) = word.split_first() else {
        return false;
    };
    begins_name(*first) && has_name_bytes(rest)
}

/// Whether the parts that are left are good names, and no more than this.
fn are_names(most: usize, mut names: Pieces) -> bool
    ensures { result ≡ are_names most names.entry }
{
    let mut left = most;
    while let Some(name) = names.next() {
        if left == 0 || !is_good_name(name) {
            return false;
        }
        left -= 1;
    }
    true
}

/// Whether a part of a focus is a hierarchy with at most `most` names below it.
fn is_branch(root: &[u8], most: usize, text: &[u8]) -> bool
    ensures { result ≡ is_branch root.now most text.now }
{
    let mut names = Pieces::of(b'/', text);
    let Some(first) = names.next() else {
        return false;
    };
    let Some(name) = names.next() else {
        return false;
    };
    first.is_empty() && name == root && are_names(most, names)
}

/// Whether a word is a focus in its canonical form, for some tree.
fn is_focus(word: &[u8]) -> bool
    ensures { result ≡ is_focus word.now }
{
    let mut parts = Pieces::of(b',', word);
    let Some(code) = parts.next() else {
        return false;
    };
    let Some(machine) = parts.next() else {
        return false;
    };
    let Some(object) = parts.next() else {
        return false;
    };
    parts.next().is_none()
        && is_branch(b"Code", 2, code)
        && is_branch(b"Machine", 1, machine)
        && is_branch(b"SyncObject", 1, object)
}

/// Whether a word is as a form's word says.
fn is_as(form: &[u8], word: &[u8]) -> bool
    ensures { result ≡ is_as form.now word.now }
{
    if says(form, b"NUMBER") {
        decimal_number(word).is_some()
    } else if says(form, b"PARENT") {
        says(word, b"none") || decimal_number(word).is_some()
    } else if says(form, b"NAME") {
        is_name(word)
    } else if says(form, b"FOCUS") {
        is_focus(word)
    } else {
        form == word
    }
}

/// Returns whether a line has a form, in which `NUMBER`, `PARENT` (a number or `none`), `NAME` and `FOCUS` stand for such
/// words, `ANYTHING` for one word or more, and each other word for itself.
pub fn has_form(form: &[u8], line: &[u8]) -> bool
    ensures { result ≡ has_form form.now line.now }
{
    let mut forms = Pieces::of(b' ', form);
    let mut words = Pieces::of(b' ', line);
    while let Some(part) = forms.next() {
        let Some(word) = words.next() else {
            return false;
        };
        if says(part, b"ANYTHING") {
            return true;
        }
        if !is_as(part, word) {
            return false;
        }
    }
    words.next().is_none()
}

/// Returns the word at a place of a line, counted from 0, or nothing.
pub fn word_at(place: usize, line: &[u8]) -> &[u8]
    ensures { result.now ≡ word_at place line.now }
{
    let mut words = Pieces::of(b' ', line);
    for _ in 0..place {
        words.next();
    }
    match words.next() {
        Some(word) => word,
        None => &[],
    }
}

/// Returns the number at a place of a line, or 0.
pub fn number_at(place: usize, line: &[u8]) -> u64
    ensures { result ≡ number_at place line.now }
{
    decimal_number(word_at(place, line)).unwrap_or(0)
}
