//! The values of words, by name and without memory.

ghost use Rattle.std.specs.Prelude.{◌≡◌, option_map};
ghost use Rattle.command_words.specs.Walks.{no_values, with_named, value_of};
ghost use Rattle.command_words.specs.Walked.{form_seen, values_seen};

use crate::forms::{Form, MAX_NAMES};

/// A value for each name of a form, where it has one.
#[derive(Clone, Copy, Drop)]
pub struct Values<'a> {
    at_slots: [Option<&'a str>; MAX_NAMES],
}

impl<'a> Values<'a> {
    /// Returns values of which no name has one.
    pub fn none() -> Values<'a>
        ensures { values_seen result ≡ no_values }
    {
        Values {
            at_slots: [None; MAX_NAMES],
        }
    }

    /// Returns the value of a name.
    pub fn get(&self, form: &Form, name: &str) -> Option<&'a str>
        ensures { option_map (λ s. s.now) result ≡ value_of (form_seen form.now) (values_seen self.now) name.now }
    {
        self.at_slots[form.slot_of(name)?]
    }

    /// Returns the values with one more, if the name is known and has none yet.
    pub fn put(&self, form: &Form, name: &str, value: &'a str) -> Option<Values<'a>>
        ensures { option_map values_seen result ≡ with_named (form_seen form.now) (values_seen self.now) name.now value.entry.now }
    {
        let slot = form.slot_of(name)?;
        let before = self.at_slots[slot];
        if before.is_some() {
            return None;
        }
        let mut values = *self;
        values.at_slots[slot] = Some(value);
        Some(values)
    }
}
