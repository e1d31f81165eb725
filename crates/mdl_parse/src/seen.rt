//! A word in view, and what it may mean.

ghost use Rattle.std.specs.Prelude.{◌≡◌};
ghost use Rattle.std.specs.Option.{option_map};
ghost use Rattle.mdl_parse.specs.Gives.{word_seen, var_seen};
ghost use Rattle.mdl_parse.specs.Picks.{is_sign, is_arg, is_var, name_of, word_number, quoted_of, path_of, choice_of, step_of, sign_step, whole_of, event_named, event_of, var_of, right_of, sign_cmp, cmp_of};
ghost use Rattle.mdl_parse.specs.Shapes.{is_keyword};

use crate::change::Change;
use mdl_ast::{EventKind, RightSide, Set};
use pn_text::Sign;
use pn_types::Cmp;

/// A word that is in view.
#[derive(Clone, Copy)]
pub(crate) enum Seen<'a> {
    /// A name.
    Name(&'a [u8]),
    /// A number.
    Number(u32),
    /// A string, the text between its quotes.
    Quoted(&'a [u8]),
    /// A focus, with its `/`.
    Path(&'a [u8]),
    /// `$focus`
    DollarFocus,
    /// `$all`
    DollarAll,
    /// `$metric`
    DollarMetric,
    /// `$value`
    DollarValue,
    /// `$arg`
    DollarArg,
    /// A sign.
    Sign(Sign),
}

/// A variable in view.
#[derive(Clone, Copy)]
pub(crate) enum SeenVar<'a> {
    /// One with this name.
    Named(&'a [u8]),
    /// `$metric`
    TheMetric,
}

/// The comparison that a sign stands for.
fn cmp(sign: Sign) -> Option<Cmp>
    ensures { result ≡ sign_cmp sign }
{
    match sign {
        Sign::Equal => Some(Cmp::Eq),
        Sign::NotEqual => Some(Cmp::Ne),
        Sign::Less => Some(Cmp::Lt),
        Sign::LessEqual => Some(Cmp::Le),
        Sign::Greater => Some(Cmp::Gt),
        Sign::GreaterEqual => Some(Cmp::Ge),
        _ => None,
    }
}

/// What a sign does with a variable.
fn step(sign: Sign) -> Option<Change>
    ensures { result ≡ sign_step sign }
{
    match sign {
        Sign::PlusPlus => Some(Change::Up),
        Sign::MinusMinus => Some(Change::Down),
        _ => None,
    }
}

/// The kind of points that a name stands for.
fn event(name: &[u8]) -> Option<EventKind>
    ensures { result ≡ event_named name.now }
{
    if name == b"entry".as_slice() {
        Some(EventKind::Entry)
    } else if name == b"return".as_slice() {
        Some(EventKind::Return)
    } else if name == b"call".as_slice() {
        Some(EventKind::Call)
    } else if name == b"after".as_slice() {
        Some(EventKind::After)
    } else {
        None
    }
}

impl<'a> Seen<'a> {
    /// Whether it is this keyword.
    pub(crate) fn is_keyword(self, text: &[u8]) -> bool
        ensures { result ≡ is_keyword text.now (word_seen self.entry) }
    {
        match self {
            Seen::Name(name) => name == text,
            _ => false,
        }
    }

    /// Whether it is this sign.
    pub(crate) fn is_sign(self, sign: Sign) -> bool
        ensures { result ≡ is_sign sign (word_seen self.entry) }
    {
        match self {
            Seen::Sign(other) => other == sign,
            _ => false,
        }
    }

    /// The name.
    pub(crate) fn name(self) -> Option<&'a [u8]>
        ensures { option_map (λ name. name.now) result ≡ name_of (word_seen self.entry) }
    {
        match self {
            Seen::Name(name) => Some(name),
            _ => None,
        }
    }

    /// The number.
    pub(crate) fn number(self) -> Option<u32>
        ensures { result ≡ word_number (word_seen self.entry) }
    {
        match self {
            Seen::Number(number) => Some(number),
            _ => None,
        }
    }

    /// The text between the quotes.
    pub(crate) fn quoted(self) -> Option<&'a [u8]>
        ensures { option_map (λ text. text.now) result ≡ quoted_of (word_seen self.entry) }
    {
        match self {
            Seen::Quoted(text) => Some(text),
            _ => None,
        }
    }

    /// The focus.
    pub(crate) fn path(self) -> Option<&'a [u8]>
        ensures { option_map (λ path. path.now) result ≡ path_of (word_seen self.entry) }
    {
        match self {
            Seen::Path(path) => Some(path),
            _ => None,
        }
    }

    /// Which of two keywords it is: whether the first.
    pub(crate) fn choice(self, one: &[u8], other: &[u8]) -> Option<bool>
        ensures { result ≡ choice_of one.now other.now (word_seen self.entry) }
    {
        match self {
            Seen::Name(name) => if name == one {
                Some(true)
            } else if name == other {
                Some(false)
            } else {
                None
            },
            _ => None,
        }
    }

    /// The kind of points.
    pub(crate) fn event(self) -> Option<EventKind>
        ensures { result ≡ event_of (word_seen self.entry) }
    {
        match self {
            Seen::Name(name) => event(name),
            _ => None,
        }
    }

    /// The comparison.
    pub(crate) fn cmp(self) -> Option<Cmp>
        ensures { result ≡ cmp_of (word_seen self.entry) }
    {
        match self {
            Seen::Sign(sign) => cmp(sign),
            _ => None,
        }
    }

    /// The right side of a condition.
    pub(crate) fn right(self) -> Option<RightSide>
        ensures { result ≡ right_of (word_seen self.entry) }
    {
        match self {
            Seen::Number(number) => Some(RightSide::Number(number)),
            Seen::DollarValue => Some(RightSide::Value),
            _ => None,
        }
    }

    /// The variable.
    pub(crate) fn var(self) -> Option<SeenVar<'a>>
        ensures { option_map var_seen result ≡ var_of (word_seen self.entry) }
    {
        match self {
            Seen::Name(name) => Some(SeenVar::Named(name)),
            Seen::DollarMetric => Some(SeenVar::TheMetric),
            _ => None,
        }
    }

    /// One more, or one less.
    pub(crate) fn step(self) -> Option<Change>
        ensures { result ≡ step_of (word_seen self.entry) }
    {
        match self {
            Seen::Sign(sign) => step(sign),
            _ => None,
        }
    }

    /// A set of procedures that has a word of its own.
    pub(crate) fn whole(self) -> Option<Set>
        ensures { result ≡ whole_of (word_seen self.entry) }
    {
        match self {
            Seen::DollarFocus => Some(Set::Focus),
            Seen::DollarAll => Some(Set::All),
            _ => None,
        }
    }

    /// Whether it is `$arg`.
    pub(crate) fn is_arg(self) -> bool
        ensures { result ≡ is_arg (word_seen self.entry) }
    {
        match self {
            Seen::DollarArg => true,
            _ => false,
        }
    }

    /// Whether it is a variable.
    pub(crate) fn is_var(self) -> bool
        ensures { result ≡ is_var (word_seen self.entry) }
    {
        match self {
            Seen::Name(_) | Seen::DollarMetric => true,
            _ => false,
        }
    }
}
