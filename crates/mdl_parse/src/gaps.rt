//! Where no space stands between two words of a line.

ghost use Rattle.std.specs.Prelude.{◌≡◌, ◌&&◌};
ghost use Rattle.pn_text.specs.Writing.{stand_apart};
ghost use Rattle.mdl_parse.specs.Gives.{word_seen};
ghost use Rattle.mdl_parse.specs.Printing.{is_tight, is_closing, is_opening, is_calling};
ghost use Rattle.mdl_parse.specs.Tight.{runs_behind, runs_before};

use crate::seen::Seen;
use pn_text::Sign;

/// No space stands before the word.
fn closes(word: Seen) -> bool
    ensures { result ≡ is_closing (word_seen word.entry) }
{
    match word {
        Seen::Sign(sign) => match sign {
            Sign::Semicolon
            | Sign::Comma
            | Sign::CloseParen
            | Sign::CloseBracket
            | Sign::PlusPlus
            | Sign::MinusMinus => true,
            _ => false,
        },
        _ => false,
    }
}

/// None stands after it.
fn opens(word: Seen) -> bool
    ensures { result ≡ is_opening (word_seen word.entry) }
{
    match word {
        Seen::Sign(sign) => match sign {
            Sign::OpenParen | Sign::OpenBracket => true,
            _ => false,
        },
        _ => false,
    }
}

/// None stands between it and its bracket.
fn calls(word: Seen) -> bool
    ensures { result ≡ is_calling (word_seen word.entry) }
{
    match word {
        Seen::Name(name) => name == b"start".as_slice() || name == b"stop".as_slice(),
        Seen::DollarArg => true,
        _ => false,
    }
}

/// A focus would go on with what closes, but for `;`.
fn runs_behind(left: Seen, right: Seen) -> bool
    ensures { result ≡ runs_behind (word_seen left.entry) (word_seen right.entry) }
{
    match left {
        Seen::Path(_) => match right {
            Seen::Sign(sign) => sign != Sign::Semicolon,
            _ => true,
        },
        _ => false,
    }
}

/// `(` would go on with `*)`.
fn runs_before(left: Seen, right: Seen) -> bool
    ensures { result ≡ runs_before (word_seen left.entry) (word_seen right.entry) }
{
    match left {
        Seen::Sign(Sign::OpenParen) => match right {
            Seen::Sign(sign) => sign == Sign::CloseCode,
            _ => false,
        },
        _ => false,
    }
}

/// Whether no space stands between two words.
#[tactic(auto, using(crate::proofs::Tight::close_same))]
pub(crate) fn stand_close(left: Seen, right: Seen) -> bool
    ensures { result ≡ (is_tight (word_seen left.entry) (word_seen right.entry)
        && stand_apart (word_seen left.entry) (word_seen right.entry)) }
{
    if runs_behind(left, right) || runs_before(left, right) {
        return false;
    }
    closes(right) || opens(left) || (opens(right) && calls(left))
}
