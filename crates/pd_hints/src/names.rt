//! Names of a configuration that nothing has.

use crate::nearest::add_unknown;
use crate::texts::{add, name_text};
use crate::variables::add_variable;
use mdl_ast::{Hypothesis, Item, Metric};
use pn_types::NoMemory;
use std::alloc::Global;

/// What is kind.
#[derive(Clone, Copy, PartialEq, Eq, Drop)]
pub(crate) enum NameKind {
    /// A metric.
    Metric,
    /// A constraint.
    Constraint,
    /// A hypothesis.
    Hypothesis,
}

impl NameKind {
    /// Returns the word for it.
    fn word(self) -> &'static str {
        match self {
            NameKind::Metric => "metric",
            NameKind::Constraint => "constraint",
            NameKind::Hypothesis => "hypothesis",
        }
    }

    /// Returns the include whose items have such names.
    fn include(self) -> &'static str {
        match self {
            NameKind::Metric | NameKind::Constraint => "include metrics;",
            NameKind::Hypothesis => "include hypotheses;",
        }
    }

    /// Returns the name that an item gives to one of these.
    fn name_of(self, item: &Item) -> Option<&str> {
        match (self, item) {
            (NameKind::Metric, Item::Metric(metric)) => Some(name_text(metric.name.bytes())),
            (NameKind::Constraint, Item::Constraint(constraint)) => Some(name_text(
                constraint.name.bytes(),
            )),
            (NameKind::Hypothesis, Item::Hypothesis(hypothesis)) => Some(name_text(
                hypothesis.name.bytes(),
            )),
            _ => None,
        }
    }
}

/// The items of a configuration, and those that are shipped.
#[derive(Clone, Copy, Drop)]
pub(crate) struct Items<'a> {
    pub(crate) own: &'a [Item],
    pub(crate) shipped: &'a [Item],
}

impl<'a> Items<'a> {
    /// Returns whether the shipped items are taken that have such names.
    fn include(&self, kind: NameKind) -> bool {
        let metrics = kind != NameKind::Hypothesis;
        self.own.iter().any(|item| match item {
            Item::Include(include) => include.metrics == metrics,
            _ => false,
        })
    }

    /// Returns whether the configuration has a name for one of these.
    pub(crate) fn have(&self, kind: NameKind, name: &str) -> bool {
        let own = self.own.iter().any(|item| kind.name_of(item) == Some(name));
        own || self.include(kind) && self.ship(kind, name)
    }

    /// Returns all names of these, those that are shipped too.
    fn names(&self, alloc: Global, kind: NameKind) -> Result<Vec<&'a str>, NoMemory> {
        self.own
            .iter()
            .chain(self.shipped)
            .filter_map(|item| kind.name_of(item))
            .collect(alloc)
    }

    /// Returns whether a name is shipped.
    fn ship(&self, kind: NameKind, name: &str) -> bool {
        self.shipped
            .iter()
            .any(|item| kind.name_of(item) == Some(name))
    }

    /// Adds a line on a name, if the configuration doesn't have it.
    pub(crate) fn add_name(
        &self,
        alloc: Global,
        text: &mut String,
        kind: NameKind,
        name: &str,
    ) -> Result<(), NoMemory> {
        if self.have(kind, name) {
            return Ok(());
        }
        let word = kind.word();
        if self.ship(kind, name) {
            return add_shipped(text, word, name, kind.include());
        }
        add_unknown(alloc, text, word, name, &self.names(alloc, kind)?)?;
        if self.include(kind) {
            return Ok(());
        }
        add(
            text,
            "The shipped ones are there with `{}`.\n",
            &[kind.include()],
        )
    }
}

/// Adds that a name is shipped, and what brings it.
fn add_shipped<'t>(
    text: &mut String,
    word: &'t str,
    name: &'t str,
    include: &'t str,
) -> Result<(), NoMemory> {
    add(
        text,
        "The {} '{}' is a shipped one: write `{}` too.\n",
        &[word, name, include],
    )
}

/// Adds a line on an axis, if there is none of this name.
fn add_axis(alloc: Global, text: &mut String, axis: &str) -> Result<(), NoMemory> {
    let axes = ["Code", "Machine", "SyncObject"];
    if axes.contains(&axis) {
        return Ok(());
    }
    add_unknown(alloc, text, "axis", axis, &axes)
}

/// Adds a line on each name of a metric's head that nothing has.
fn add_metric(
    alloc: Global,
    text: &mut String,
    items: &Items<'_>,
    metric: &Metric,
) -> Result<(), NoMemory> {
    for name in metric.constraints.as_slice() {
        items.add_name(alloc, text, NameKind::Constraint, name_text(name.bytes()))?;
    }
    add_variable(text, Some(metric.name.bytes()), metric.blocks.as_slice())
}

/// Adds a line on each name of a hypothesis that nothing has.
fn add_hypothesis(
    alloc: Global,
    text: &mut String,
    items: &Items<'_>,
    hypothesis: &Hypothesis,
) -> Result<(), NoMemory> {
    if let Some(parent) = &hypothesis.parent {
        items.add_name(alloc, text, NameKind::Hypothesis, name_text(parent.bytes()))?;
    }
    items.add_name(
        alloc,
        text,
        NameKind::Metric,
        name_text(hypothesis.metric.bytes()),
    )?;
    for axis in hypothesis.axes.as_slice() {
        add_axis(alloc, text, name_text(axis.bytes()))?;
    }
    Ok(())
}

/// Adds a line on each name of an item that nothing has.
pub(crate) fn add_unknown_names(
    alloc: Global,
    text: &mut String,
    items: &Items<'_>,
    item: &Item,
) -> Result<(), NoMemory> {
    match item {
        Item::Metric(metric) => add_metric(alloc, text, items, metric),
        Item::Constraint(constraint) => {
            let own = if constraint.replace {
                None
            } else {
                Some(constraint.name.bytes())
            };
            add_variable(text, own, constraint.blocks.as_slice())
        }
        Item::Hypothesis(hypothesis) => add_hypothesis(alloc, text, items, hypothesis),
        Item::Wish(wish) => items.add_name(
            alloc,
            text,
            NameKind::Metric,
            name_text(wish.metric.bytes()),
        ),
        Item::Include(include) if !include.metrics => {
            text.push_str(
                "The shipped hypotheses test the shipped metrics: write `include metrics;` too.\n",
            )
        }
        Item::Include(_) | Item::Sync(_) | Item::Search(_) | Item::Phase(_) => Ok(()),
    }
}
