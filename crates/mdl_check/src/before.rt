//! What stands before an item.

ghost use Rattle.std.specs.Prelude.{◌≡◌, [], OnOk, length};
ghost use Rattle.std.specs.List.{list_any};
ghost use Rattle.mdl_check.specs.Names.{variable_name, hypothesis_name, phase_name, has_name};
ghost use Rattle.mdl_check.specs.Rules.{is_include, is_search, is_shown_by, last_tick, tick_behind};
ghost use Rattle.mdl_check.specs.Indexes.{AreNoted, NotesMore, asked_behind, none_asked};
ghost use Rattle.mdl_check.specs.Sights.{Puts, ShowsMore, is_same_sight};

use crate::entry::Entry;
use crate::names::{add_name, hypothesis_name, phase_name, variable_name};
use crate::sight::{MetricFocus, first_sight};
use first_places::FirstPlaces;
use mdl_ast::Item;
use pn_types::{Focus, NoMemory};
use std::alloc::Global;
use std::collections::HashSet;
use std::marker::Model;

/// What stands at most once, and the tick that a phase must be above.
#[derive(Clone, Copy, Drop)]
struct Asked {
    /// `include metrics` stands there.
    metrics: bool,
    /// `include hypotheses` stands there.
    hypotheses: bool,
    /// A `search` stands there.
    search: bool,
    /// The tick of the last phase, or 0.
    tick: u32,
}

fn is_include(metrics: bool, item: &Item) -> bool
    ensures { result ≡ is_include metrics item.now }
{
    match item {
        Item::Include(include) => {
            if metrics {
                include.metrics
            } else {
                !include.metrics
            }
        }
        _ => false,
    }
}

fn is_search(item: &Item) -> bool
    ensures { result ≡ is_search item.now }
{
    matches!(item, Item::Search(_))
}

/// The tick of the phase, and else the one before.
fn tick_behind(tick: u32, item: &Item) -> u32
    ensures { result ≡ tick_behind tick item.now }
{
    match item {
        Item::Phase(phase) => phase.at,
        _ => tick,
    }
}

impl Asked {
    fn none() -> Asked
        ensures { result ≡ none_asked }
    {
        Asked {
            metrics: false,
            hypotheses: false,
            search: false,
            tick: 0,
        }
    }

    fn behind(self, item: &Item) -> Asked
        ensures { result ≡ asked_behind self item.now }
    {
        Asked {
            metrics: self.metrics || is_include(true, item),
            hypotheses: self.hypotheses || is_include(false, item),
            search: self.search || is_search(item),
            tick: tick_behind(self.tick, item),
        }
    }
}

/// What items name, show from the beginning on and ask for.
pub(crate) struct Noted<'a> {
    variables: FirstPlaces,
    hypotheses: FirstPlaces,
    phases: FirstPlaces,
    /// What is to be shown from the beginning on.
    shown: HashSet<MetricFocus<'a>>,
    asked: Asked,
}

// A function of its own, so that what drops it need not prove the drops of all its parts.
impl Drop for Noted<'_> {
    fn drop(self) {
        let Noted {
            variables: _,
            hypotheses: _,
            phases: _,
            shown: _,
            asked: _,
        } = self;
    }
}

/// The items before one, and what is noted of them.
#[derive(Drop)]
pub(crate) struct Before<'n, 'e, 'a> {
    items: &'e [Entry<'a>],
    noted: &'n Noted<'a>,
}

impl<'n, 'e, 'a> Model for Before<'n, 'e, 'a> {
    ghost use Rattle.std.specs.Prelude.{List};
    ghost use Rattle.mdl_check.specs.Placed.{Entry};
    ghost use Rattle.mdl_check.specs.Indexes.{AreNoted};

    ghost Value = { List Entry };

    ghost view = { λ b. b.items.now };

    ghost invariant = { λ b. AreNoted b.items.now b.noted.now };
}

/// Whether a sight is among those that are shown.
fn is_shown(shown: &HashSet<MetricFocus<'_>>, sight: MetricFocus<'_>) -> bool
    ensures { result ≡ list_any (is_same_sight sight.entry) shown.now.keys }
{
    shown.contains(&sight)
}

fn put<'a>(shown: &mut HashSet<MetricFocus<'a>>, sight: MetricFocus<'a>) -> Result<(), NoMemory>
    ensures { OnOk result (Puts sight.entry shown.old.keys shown.new.keys) }
{
    shown.insert(sight)?;
    Ok(())
}

/// Notes what an item shows from the beginning on, if it does.
fn add_shown<'a>(shown: &mut HashSet<MetricFocus<'a>>, entry: &Entry<'a>) -> Result<(), NoMemory>
    ensures { OnOk result (ShowsMore entry.now shown.old.keys shown.new.keys) }
{
    if let Some(sight) = first_sight(entry.item(), entry.focus()) {
        put(shown, sight)?;
    }
    Ok(())
}

impl<'a> Noted<'a> {
    /// What is noted before the first item.
    pub(crate) fn none(alloc: Global) -> Noted<'a>
        ensures { AreNoted [] result }
    {
        Noted {
            variables: FirstPlaces::new(alloc),
            hypotheses: FirstPlaces::new(alloc),
            phases: FirstPlaces::new(alloc),
            shown: HashSet::new(alloc),
            asked: Asked::none(),
        }
    }

    /// Notes one more item.
    pub(crate) fn add(&mut self, alloc: Global, entry: &Entry<'a>) -> Result<(), NoMemory>
        ensures { OnOk result (NotesMore entry.now self.old self.new) }
    {
        let item = entry.item();
        self.asked = self.asked.behind(item);
        add_name(alloc, &mut self.variables, variable_name(item))?;
        add_name(alloc, &mut self.hypotheses, hypothesis_name(item))?;
        add_name(alloc, &mut self.phases, phase_name(item))?;
        add_shown(&mut self.shown, entry)
    }
}

impl<'n, 'e, 'a> Before<'n, 'e, 'a> {
    /// These items, of which this is noted.
    pub(crate) fn new(items: &'e [Entry<'a>], noted: &'n Noted<'a>) -> Before<'n, 'e, 'a>
        requires { AreNoted items.now noted.now }
        ensures { result ≡ items.now }
    {
        Before { items, noted }
    }

    /// How many there are.
    pub(crate) fn len(&self) -> usize
        ensures { result ≡ length self.now }
    {
        self.items.len()
    }

    /// Whether one of them is a metric or a constraint of this name.
    pub(crate) fn has_variable(&self, name: &[u8]) -> bool
        ensures { result ≡ has_name variable_name name.now self.now }
    {
        self.noted.variables.lookup(name).is_some()
    }

    /// Whether one of them is a hypothesis of this name.
    pub(crate) fn has_hypothesis(&self, name: &[u8]) -> bool
        ensures { result ≡ has_name hypothesis_name name.now self.now }
    {
        self.noted.hypotheses.lookup(name).is_some()
    }

    /// Whether one of them is a phase of this name.
    pub(crate) fn has_phase(&self, name: &[u8]) -> bool
        ensures { result ≡ has_name phase_name name.now self.now }
    {
        self.noted.phases.lookup(name).is_some()
    }

    /// Whether one of them is such an include.
    pub(crate) fn includes(&self, metrics: bool) -> bool
        ensures { result ≡ list_any (λ e. is_include metrics e.item) self.now }
    {
        if metrics {
            self.noted.asked.metrics
        } else {
            self.noted.asked.hypotheses
        }
    }

    /// Whether one of them is a search.
    pub(crate) fn has_search(&self) -> bool
        ensures { result ≡ list_any (λ e. is_search e.item) self.now }
    {
        self.noted.asked.search
    }

    /// The tick of the last phase, or 0.
    pub(crate) fn last_tick(&self) -> u32
        ensures { result ≡ last_tick self.now }
    {
        self.noted.asked.tick
    }

    /// Whether one of them shows the metric at the focus from the beginning on.
    pub(crate) fn shows(&self, metric: &'a [u8], focus: Option<Focus>) -> bool
        ensures { result ≡ list_any (λ e. is_shown_by metric.now focus e.item e.focus) self.now }
    {
        match focus {
            Some(focus) => is_shown(&self.noted.shown, MetricFocus::new(metric, focus)),
            None => false,
        }
    }
}
