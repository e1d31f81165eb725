//! What is given to a command.

ghost use Rattle.std.specs.Prelude.{◌≡◌, ◌++◌, [], ◌∷◌, find, is_some, map, option_map, string_bytes, IfOk};
ghost use Rattle.std.specs.List.{filter};
ghost use Rattle.std.specs.Str.{bytes_eq};
ghost use Rattle.command_words.specs.Grammar.{given_in};
ghost use Rattle.pd_words.specs.Wishes.{joined_values};
ghost use Rattle.pd_words.specs.Seen.{given_seen};

use pn_types::NoMemory;
use std::alloc::Global;

/// A value by the name of its positional word or option.
#[derive(Clone, Copy, Drop)]
pub struct NamedValue<'a> {
    pub name: &'static str,
    /// It is empty where an option stands alone.
    pub value: &'a str,
}

/// What is given to a command: values by name, in the order in which they stand.
#[derive(Drop)]
pub struct Given<'a> {
    pub values: Vec<NamedValue<'a>>,
}

/// Returns the first of some values that has this name.
fn first_named<'a>(values: &[NamedValue<'a>], name: &str) -> Option<NamedValue<'a>>
    ensures { result ≡ find (λ pair. bytes_eq pair.name.now name.now) values.now }
{
    values.iter().copied().find(|pair| pair.name == name)
}

/// Returns those of some values that have this name.
fn all_named<'a>(
    alloc: Global,
    values: &[NamedValue<'a>],
    name: &str,
) -> Result<Vec<&'a str>, NoMemory>
    ensures { IfOk result (λ found. found.items ≡ map (λ pair. pair.value) (filter (λ pair. bytes_eq pair.name.now name.now) values.now)) }
{
    values
        .iter()
        .copied()
        .filter(|pair| pair.name == name)
        .map(|pair| pair.value)
        .collect(alloc)
}

impl<'a> Given<'a> {
    /// Returns the first value of a name.
    pub fn value(&self, name: &str) -> Option<&'a str>
        ensures { option_map (λ s. s.now) result ≡ given_in (given_seen self.now) name.now }
    {
        match first_named(&self.values, name) {
            Some(pair) => Some(pair.value),
            None => None,
        }
    }

    /// Returns whether a name has a value.
    pub fn has(&self, name: &str) -> bool
        ensures { result ≡ is_some (given_in (given_seen self.now) name.now) }
    {
        self.value(name).is_some()
    }

    /// Returns all values of a name in a row, with commas between.
    ///
    /// # Errors
    ///
    /// `NoMemory` where memory runs out.
    pub fn joined(&self, alloc: Global, name: &str) -> Result<String, NoMemory>
        ensures { IfOk result (λ text. string_bytes text ≡ joined_values (given_seen self.now) name.now) }
    {
        let values = all_named(alloc, &self.values, name)?;
        values.as_slice().join(alloc, ",")
    }

    /// Adds a value of a name.
    ///
    /// # Errors
    ///
    /// `NoMemory` where memory runs out.
    pub fn add(&mut self, name: &'static str, value: &'a str) -> Result<(), NoMemory>
        ensures { IfOk result (λ _. given_seen self.new ≡ given_seen self.old ++ ((name.now, value.entry.now) ∷ [])) }
    {
        self.values.push(NamedValue { name, value })?;
        Ok(())
    }
}
