//! The names of a form.

ghost use Rattle.std.specs.Prelude.{◌≡◌, ◌<◌, ◌+◌, IfSome, length, option_map, slice_get};
ghost use Rattle.std.specs.List.{list_any, position};
ghost use Rattle.std.specs.Str.{bytes_eq};
ghost use Rattle.command_words.specs.Grammar.{is_among};
ghost use Rattle.command_words.specs.Walks.{slot_of};
ghost use Rattle.command_words.specs.Walked.{form_seen};

use crate::forms::{Form, MAX_NAMES};

/// Returns whether a name is one of these.
fn is_among(names: &[&str], name: &str) -> bool
    ensures { result ≡ list_any (λ other. bytes_eq name.now other.now) names.now }
{
    names.iter().any(|other| name == *other)
}

/// Returns the place of a name in these.
fn position_of(names: &[&str], name: &str) -> Option<usize>
    ensures number { result ≡ position (λ other. bytes_eq other.now name.now) names.now }
    ensures range { IfSome result (λ number. number < length names.now) }
{
    names.iter().position(|other| *other == name)
}

impl Form {
    /// Returns the name of a place.
    pub fn place(&self, place: usize) -> Option<&'static str>
        ensures { option_map (λ s. s.now) result ≡ slice_get (form_seen self.now).places place }
    {
        self.places.get(place).copied()
    }

    /// Returns whether it has an option of this name.
    pub fn has_option(&self, name: &str) -> bool
        ensures { result ≡ is_among (form_seen self.now).options name.now }
    {
        is_among(self.options, name)
    }

    /// Returns the number of a name among those of the places and the options.
    pub fn slot_of(&self, name: &str) -> Option<usize>
        ensures number { result ≡ slot_of (form_seen self.now) name.now }
        ensures range { IfSome result (λ slot. slot < MAX_NAMES) }
    {
        match position_of(self.places, name) {
            Some(place) => Some(place),
            None => Some(self.places.len() + position_of(self.options, name)?),
        }
    }
}
