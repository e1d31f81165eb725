//! Takes the words of a command one at a time, without memory.

ghost use Rattle.std.specs.Prelude.{◌≡◌, map, option_map, string_bytes};
ghost use Rattle.std.specs.List.{list_all};
ghost use Rattle.std.specs.Option.{is_some};
ghost use Rattle.command_words.specs.Walks.{first_step, with_place, with_value, optioned, by_kind, by_value, step, is_full, walk_values, value_of, values_of};
ghost use Rattle.command_words.specs.Walked.{form_seen, values_seen, walk_seen};

use crate::forms::Form;
use crate::values::Values;
use crate::word_kind::WordKind;

/// What was taken of a command's words.
#[derive(Clone, Copy, Drop)]
pub struct Walk<'a> {
    values: Values<'a>,
    /// How many places have a word.
    placed: usize,
    /// The option that awaits its value.
    awaiting: Option<&'a str>,
    /// Whether `--` was passed.
    behind: bool,
}

/// Returns whether each of these names has a value.
fn have_values(names: &[&str], form: &Form, values: &Values<'_>) -> bool
    ensures { result ≡ list_all (λ name. is_some (value_of (form_seen form.now) (values_seen values.now) name.now)) names.now }
{
    names.iter().all(|name| values.get(form, name).is_some())
}

/// Returns whether each place has its word.
fn is_full(form: &Form, values: &Values<'_>) -> bool
    ensures { result ≡ is_full (form_seen form.now) (values_seen values.now) }
{
    have_values(form.places, form, values)
}

impl<'a> Walk<'a> {
    fn new() -> Walk<'a>
        ensures { walk_seen result ≡ first_step }
    {
        Walk {
            values: Values::none(),
            placed: 0,
            awaiting: None,
            behind: false,
        }
    }

    /// Returns the walk after a word that takes the next place.
    fn place(&self, form: &Form, word: &'a str) -> Option<Walk<'a>>
        ensures { option_map walk_seen result ≡ with_place (form_seen form.now) (walk_seen self.now) word.entry.now }
    {
        let name = form.place(self.placed)?;
        let values = self.values.put(form, name, word)?;
        Some(Walk {
            values,
            placed: self.placed + 1,
            ..*self
        })
    }

    /// Returns the walk after an option, which has its value or awaits it.
    fn option(&self, form: &Form, name: &'a str, value: Option<&'a str>) -> Option<Walk<'a>>
        ensures { option_map walk_seen result
            ≡ optioned (form_seen form.now) (walk_seen self.now) name.entry.now (option_map (λ v. v.now) value.entry) }
    {
        if !form.has_option(name) {
            return None;
        }
        match value {
            None => Some(Walk {
                awaiting: Some(name),
                ..*self
            }),
            Some(value) => {
                let values = self.values.put(form, name, value)?;
                Some(Walk { values, ..*self })
            }
        }
    }

    /// Returns the walk after one more word.
    fn step(&self, form: &Form, word: &'a str) -> Option<Walk<'a>>
        ensures { option_map walk_seen result ≡ step (form_seen form.now) (walk_seen self.now) word.entry.now }
    {
        if self.behind {
            return self.place(form, word);
        }
        match (self.awaiting, WordKind::of(word)) {
            (Some(name), WordKind::Plain) => {
                let values = self.values.put(form, name, word)?;
                Some(Walk {
                    values,
                    awaiting: None,
                    ..*self
                })
            }
            (Some(_), _) => None,
            (None, WordKind::EndOfOptions) => Some(Walk {
                behind: true,
                ..*self
            }),
            (None, WordKind::Named(name, value)) => self.option(form, name, value),
            (None, WordKind::OtherFlag) => None,
            (None, WordKind::Plain) => self.place(form, word),
        }
    }

    /// Returns the values, if the words may end here.
    fn finish(&self, form: &Form) -> Option<Values<'a>>
        ensures { option_map values_seen result ≡ walk_values (form_seen form.now) (walk_seen self.now) }
    {
        if self.awaiting.is_none() && is_full(form, &self.values) {
            Some(self.values)
        } else {
            None
        }
    }
}

/// Returns the values that the words of a command give, of which `words` are those after the command's own.
pub fn values_of<'a>(form: &Form, words: &'a [String]) -> Option<Values<'a>>
    ensures { option_map values_seen result ≡ values_of (form_seen form.now) (map string_bytes words.entry.now) }
{
    let mut walk = Walk::new();
    for word in words {
        match walk.step(form, word.as_str()) {
            Some(next) => walk = next,
            None => return None,
        }
    }
    walk.finish(form)
}
