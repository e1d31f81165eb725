//! The values that words give, however they were read.

ghost use Rattle.std.specs.Prelude.{◌≡◌, option_map};
ghost use Rattle.command_words.specs.Asked.{given_by};
ghost use Rattle.command_words.specs.Walks.{value_of};
ghost use Rattle.command_words.specs.Walked.{form_seen, values_seen};

use crate::forms::Form;
use crate::values::Values;
use clap::ArgMatches;

/// A value for each name that was given one.
pub trait Given<'a> {
    ghost use Rattle.command_words.specs.Grammar.{Given as given_text};

    ghost given: { Self → given_text };

    /// Returns the value of a name.
    fn value(&self, name: &str) -> Option<&'a str>
        ensures { option_map (λ s. s.now) result ≡ given self.now name.now };
}

impl<'a> Given<'a> for ArgMatches<'a> {
    ghost given = { λ matches. given_by matches };

    fn value(&self, name: &str) -> Option<&'a str> {
        self.get_str(name)
    }
}

/// Values with the form whose names they have.
#[derive(Clone, Copy, Drop)]
pub struct FormValues<'a> {
    pub form: Form,
    pub values: Values<'a>,
}

impl<'a> Given<'a> for FormValues<'a> {
    ghost given = { λ given. value_of (form_seen given.form) (values_seen given.values) };

    fn value(&self, name: &str) -> Option<&'a str> {
        self.values.get(&self.form, name)
    }
}
