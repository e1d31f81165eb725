//! The values of a plan's variables while statements act.

ghost use Rattle.std.specs.Prelude.{◌≡◌, ◌<◌, ◌+◌, ◌^◌, slice_index, slice_set};
ghost use Rattle.frame_walk.specs.Changes.{first_acting, last_of};

use crate::changes::{Change, Changes};
use pn_types::Var;
use std::marker::Model;

/// The values of a plan's variables. They stand nowhere: a value is that of the variable's last change, or what it is initially.
#[derive(Drop)]
pub struct Values<'a> {
    vars: &'a [Var],
    changes: Changes,
}

impl<'a> Model for Values<'a> {
    ghost use Rattle.std.specs.Prelude.{length};
    ghost use Rattle.frame_walk.specs.Changes.{Acting, AreSmall, acting_of};

    ghost Value = { Acting };

    ghost view = { λ v. acting_of v.vars.now v.changes };

    ghost invariant = { λ v. AreSmall (length v.changes) v.changes };
}

/// What the changes make of the value of a variable.
fn last_of(changes: &[Change], variable: usize, first: u64) -> u64
    ensures { result ≡ last_of variable first changes.now }
{
    let mut value = first;
    for change in changes {
        if change.variable == variable {
            value = change.value;
        }
    }
    value
}

impl<'a> Values<'a> {
    /// What the variables are initially.
    pub fn new(vars: &'a [Var]) -> Values<'a>
        ensures { result ≡ first_acting vars.now }
    {
        Values {
            vars,
            changes: Changes::new(),
        }
    }

    /// The value of a variable, and 0 where there is no such variable.
    pub fn get(&self, variable: usize) -> u64
        ensures is { result ≡ slice_index self.now.values variable }
        ensures small { result < 2 ^ 32 + self.now.acts }
    {
        if variable < self.vars.len() {
            last_of(
                self.changes.as_slice(),
                variable,
                self.vars[variable].initially as u64,
            )
        } else {
            0
        }
    }

    /// Puts a value in the place of a variable's, if there is such a variable.
    pub(crate) fn set(&mut self, variable: usize, value: u64)
        requires left { self.old.acts < 2112 }
        requires small { value < 2 ^ 32 + self.old.acts + 1 }
        ensures values { self.new.values ≡ slice_set self.old.values variable value }
        ensures acts { self.new.acts ≡ self.old.acts + 1 }
    {
        self.changes.push(Change { variable, value });
    }
}
