//! What the names of a configuration lead to.

ghost use Rattle.std.specs.Prelude.{◌≡◌, ◌<◌, ◌++◌, [], IfSome, OnOk, Some, length, option_to_list, slice_get};
ghost use Rattle.std.specs.Option.{option_map};
ghost use Rattle.mdl_check.specs.Names.{constraints_in, constraint_named, metric_number, hypothesis_name, hypothesis_place, has_name, as_constraint};
ghost use Rattle.mdl_check.specs.Rules.{is_misused, is_on};
ghost use Rattle.mdl_check.specs.Indexes.{AreIndexes, KeepsMore, place_if};

use crate::entry::Entry;
use crate::names::{add_name, as_constraint, constraint_name, hypothesis_name, metric_name};
use crate::uses::{Use, have};
use first_places::FirstPlaces;
use mdl_ast::Constraint;
use pn_types::NoMemory;
use std::alloc::Global;
use std::marker::Model;

/// A constraint, and how it uses `$metric`.
#[derive(Drop)]
pub(crate) struct ConstraintUse<'a> {
    constraint: &'a Constraint,
    as_counter: bool,
    as_timer: bool,
}

impl<'a> Model for ConstraintUse<'a> {
    ghost use Rattle.std.specs.Prelude.{◌≡◌, None};
    ghost use Rattle.mdl_ast.specs.declared.metric.Constraint.{Constraint};
    ghost use Rattle.mdl_check.specs.Statements.{have};
    ghost use Rattle.mdl_check.specs.declared.uses.Use.TheVariants as uses;

    ghost Value = { Constraint };

    ghost view = { λ u. u.constraint.now };

    ghost invariant = { λ u. (u.as_counter ≡ have uses.AsCounter None u.constraint.now.blocks)
        × (u.as_timer ≡ have uses.AsTimer None u.constraint.now.blocks) };
}

impl<'a> ConstraintUse<'a> {
    fn new(constraint: &'a Constraint) -> ConstraintUse<'a>
        ensures { result ≡ constraint.now }
    {
        let blocks = constraint.blocks.as_slice();
        ConstraintUse {
            constraint,
            as_counter: have(Use::AsCounter, None, blocks),
            as_timer: have(Use::AsTimer, None, blocks),
        }
    }

    /// Whether it is a replacement that uses `$metric` as one of the other kind.
    pub(crate) fn is_misused(&self, timer: bool) -> bool
        ensures { result ≡ is_misused timer (Some self.now) }
    {
        let misused = if timer {
            self.as_counter
        } else {
            self.as_timer
        };
        self.constraint.replace && misused
    }

    /// Whether it is one of this axis.
    pub(crate) fn is_on(&self, path: &[u8]) -> bool
        ensures { result ≡ is_on path.now (Some self.now) }
    {
        path == self.constraint.path.bytes()
    }
}

/// What is kept of items, so that each name is found at once.
pub(crate) struct Kept<'a> {
    metrics: FirstPlaces,
    constraints: FirstPlaces,
    /// The constraints in their order, each looked through once.
    uses: Vec<ConstraintUse<'a>>,
    hypotheses: FirstPlaces,
    /// The places of the hypotheses among all items.
    places: Vec<usize>,
}

// A function of its own, so that what drops it need not prove the drops of all its parts.
impl Drop for Kept<'_> {
    fn drop(self) {
        let Kept {
            metrics: _,
            constraints: _,
            uses: _,
            hypotheses: _,
            places: _,
        } = self;
    }
}

/// All items of a configuration, and what the names in it lead to.
#[derive(Drop)]
pub(crate) struct Index<'e, 'a> {
    all: &'e [Entry<'a>],
    kept: &'e Kept<'a>,
}

impl<'e, 'a> Model for Index<'e, 'a> {
    ghost use Rattle.std.specs.Prelude.{List};
    ghost use Rattle.mdl_check.specs.Placed.{Entry};
    ghost use Rattle.mdl_check.specs.Indexes.{AreIndexes};

    ghost Value = { List Entry };

    ghost view = { λ i. i.all.now };

    ghost invariant = { λ i. AreIndexes i.all.now i.kept.now };
}

fn add_use<'a>(uses: &mut Vec<ConstraintUse<'a>>, entry: &Entry<'a>) -> Result<(), NoMemory>
    ensures { OnOk result (uses.new.items ≡ uses.old.items ++ option_to_list (as_constraint entry.now.item)) }
{
    if let Some(constraint) = as_constraint(entry.item()) {
        uses.push(ConstraintUse::new(constraint))?;
    }
    Ok(())
}

/// Puts the place of an item last, if it is a hypothesis.
fn add_place(places: &mut Vec<usize>, entry: &Entry<'_>, place: usize) -> Result<(), NoMemory>
    ensures { OnOk result (places.new.items ≡ places.old.items ++ place_if entry.now place) }
{
    if hypothesis_name(entry.item()).is_some() {
        places.push(place)?;
    }
    Ok(())
}

impl<'a> Kept<'a> {
    /// What is kept of no items.
    pub(crate) fn none(alloc: Global) -> Kept<'a>
        ensures { AreIndexes [] result }
    {
        Kept {
            metrics: FirstPlaces::new(alloc),
            constraints: FirstPlaces::new(alloc),
            uses: Vec::new(alloc),
            hypotheses: FirstPlaces::new(alloc),
            places: Vec::new(alloc),
        }
    }

    /// Keeps what is needed of one more item, which stands at this place.
    fn add(&mut self, alloc: Global, entry: &Entry<'a>, place: usize) -> Result<(), NoMemory>
        ensures { OnOk result (KeepsMore entry.now place self.old self.new) }
    {
        let item = entry.item();
        add_name(alloc, &mut self.metrics, metric_name(item))?;
        add_name(alloc, &mut self.constraints, constraint_name(item))?;
        add_use(&mut self.uses, entry)?;
        add_name(alloc, &mut self.hypotheses, hypothesis_name(item))?;
        add_place(&mut self.places, entry, place)
    }

    /// Keeps what is needed of these items, where nothing is kept yet. Its cost is linear in their bytes.
    pub(crate) fn fill(&mut self, alloc: Global, all: &[Entry<'a>]) -> Result<(), NoMemory>
        requires { AreIndexes [] self.old }
        ensures { OnOk result (AreIndexes all.now self.new) }
    {
        for (place, entry) in all.iter().enumerate() {
            self.add(alloc, entry, place)?;
        }
        Ok(())
    }
}

/// The constraint of this number.
fn constraint_at<'s, 'a>(
    uses: &'s [ConstraintUse<'a>],
    number: usize,
) -> Option<&'s ConstraintUse<'a>>
    ensures { option_map (λ used. used.now) result ≡ slice_get uses.now number }
{
    uses.get(number)
}

/// The place of the hypothesis of this number.
fn place_at(places: &[usize], number: usize) -> Option<usize>
    ensures { result ≡ slice_get places.now number }
{
    places.get(number).copied()
}

impl<'e, 'a> Index<'e, 'a> {
    /// The index of these items, of which this is kept.
    pub(crate) fn new(all: &'e [Entry<'a>], kept: &'e Kept<'a>) -> Index<'e, 'a>
        requires { AreIndexes all.now kept.now }
        ensures { result ≡ all.now }
    {
        Index { all, kept }
    }

    /// All items.
    pub(crate) fn all(&self) -> &'e [Entry<'a>]
        ensures { result.now ≡ self.now }
    {
        self.all
    }

    /// The number of the first metric of this name.
    pub(crate) fn metric_number(&self, name: &[u8]) -> Option<usize>
        ensures number { result ≡ metric_number self.now name.now }
        ensures below { IfSome result (λ number. number < length self.now) }
    {
        self.kept.metrics.lookup(name)
    }

    /// The first constraint of this name.
    pub(crate) fn constraint_named(&self, name: &[u8]) -> Option<&ConstraintUse<'a>>
        ensures { option_map (λ used. used.now) result ≡ constraint_named (constraints_in self.now) name.now }
    {
        let number = self.kept.constraints.lookup(name)?;
        constraint_at(&self.kept.uses, number)
    }

    /// The place of the first hypothesis of this name.
    pub(crate) fn hypothesis_place(&self, name: &[u8]) -> Option<usize>
        ensures { result ≡ hypothesis_place self.now name.now }
    {
        let number = self.kept.hypotheses.lookup(name)?;
        place_at(&self.kept.places, number)
    }

    /// Whether there is a hypothesis of this name.
    pub(crate) fn has_hypothesis(&self, name: &[u8]) -> bool
        ensures { result ≡ has_name hypothesis_name name.now self.now }
    {
        self.kept.hypotheses.lookup(name).is_some()
    }
}
