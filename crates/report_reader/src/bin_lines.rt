//! The line of a bin, read once from front to back: a long report is such lines, nearly all of it.

ghost use Rattle.std.specs.Prelude.{◌≡◌, ◌++◌, ◌∷◌, [], bytes_eq, if◌then◌else◌, Some, None};
ghost use Rattle.std.specs.Option.{option_map};
ghost use Rattle.report.specs.ShownTexts.{bin_line};
ghost use Rattle.report_lines.specs.Lines.{bin_of_line};
ghost use Rattle.report_reader.specs.BinLines.{number_ahead, number_behind, with_more_digits};

use fold_hist::Bin;

/// The number whose first digits give `first` and whose others begin these bytes, and what follows it, or None where the
/// number is 2^64 or above.
fn with_more_digits(first: u64, bytes: &[u8]) -> Option<(u64, &[u8])>
    ensures { option_map (λ told. (told.0, told.1.now)) result ≡ with_more_digits first bytes.now }
{
    let mut number = first;
    let mut rest = bytes;
    'digits: while let Some((byte, behind)) = rest.split_first() {
        if !byte.is_ascii_digit() {
            break;
        }
        number = number
            .checked_mul(10)?
            .checked_add(u64::from(*byte - b'0'))?;
        rest = behind;
    }
    Some((number, rest))
}

/// The number that begins these bytes, and what follows it. A first 0 is all of it, since none is printed before a digit.
fn number_ahead(bytes: &[u8]) -> Option<(u64, &[u8])>
    ensures { option_map (λ told. (told.0, told.1.now)) result ≡ number_ahead bytes.now }
{
    let (first, rest) = bytes.split_first()?;
    if *first == b'0' {
        return Some((0, rest));
    }
    if !first.is_ascii_digit() {
        return None;
    }
    with_more_digits(u64::from(*first - b'0'), rest)
}

/// The number behind a text that begins these bytes, and what follows it.
fn number_behind<'a>(text: &[u8], bytes: &'a [u8]) -> Option<(u64, &'a [u8])>
    ensures { option_map (λ told. (told.0, told.1.now)) result ≡ number_behind text.now bytes.now }
{
    number_ahead(bytes.strip_prefix(text)?)
}

/// The bin that a line tells, or None where the line isn't that of a bin of this number.
pub(crate) fn numbered_bin(number: usize, line: &[u8]) -> Option<Bin>
    ensures { result ≡ (if bytes_eq (line.now ++ 10 ∷ []) (bin_line number (bin_of_line line.now)) then Some (bin_of_line line.now) else None) }
{
    let (place, rest) = number_behind(b"bin ", line)?;
    let (from, rest) = number_behind(b" from ", rest)?;
    let (to, rest) = number_behind(b" to ", rest)?;
    let (sum, rest) = number_behind(b" value ", rest)?;
    if place == number as u64 && rest.is_empty() {
        Some(Bin { from, to, sum })
    } else {
        None
    }
}
