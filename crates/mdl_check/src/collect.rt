//! The items of a faultless configuration, by their kinds.

ghost use Rattle.std.specs.Prelude.{◌≡◌, ◌<◌, ◌^◌, ◌++◌, List, [], None, OnOk, length};
ghost use Rattle.mdl_check.specs.Placed.{Entry};
ghost use Rattle.mdl_check.specs.Checking.{metric_of, constraint_of, hypothesis_of, phase_of, search_behind, wish_of, first_fault, checked_of};
ghost use Rattle.mdl_check.specs.Indexes.{AddsMore, AreByKind};
ghost use Rattle.mdl_check.specs.Judged.{IsJudged};

use crate::checked::{Checked, CheckedWish};
use crate::entry::Entry;
use crate::fault::CheckError;
use crate::index::Index;
use mdl_ast::{Constraint, Hypothesis, Item, Metric, PhaseDecl, SearchDecl};
use pn_types::{Focus, NoMemory, Seq};
use std::alloc::Global;

/// Items by their kinds.
#[derive(Drop)]
struct ByKind {
    metrics: Vec<Metric>,
    constraints: Vec<Constraint>,
    hypotheses: Vec<Hypothesis>,
    search: Option<SearchDecl>,
    phases: Vec<PhaseDecl>,
    wishes: Vec<CheckedWish>,
}

fn add_metric(alloc: Global, metrics: &mut Vec<Metric>, entry: &Entry<'_>) -> Result<(), NoMemory>
    ensures { OnOk result (metrics.new.items ≡ metrics.old.items ++ metric_of entry.now.line entry.now.item) }
{
    if let Item::Metric(metric) = entry.item() {
        let mut copy = metric.copy(alloc)?;
        copy.line = entry.line();
        metrics.push(copy)?;
    }
    Ok(())
}

fn add_constraint(
    alloc: Global,
    constraints: &mut Vec<Constraint>,
    entry: &Entry<'_>,
) -> Result<(), NoMemory>
    ensures { OnOk result (constraints.new.items ≡ constraints.old.items ++ constraint_of entry.now.line entry.now.item) }
{
    if let Item::Constraint(constraint) = entry.item() {
        let mut copy = constraint.copy(alloc)?;
        copy.line = entry.line();
        constraints.push(copy)?;
    }
    Ok(())
}

fn add_hypothesis(
    alloc: Global,
    hypotheses: &mut Vec<Hypothesis>,
    entry: &Entry<'_>,
) -> Result<(), NoMemory>
    ensures { OnOk result (hypotheses.new.items ≡ hypotheses.old.items ++ hypothesis_of entry.now.line entry.now.item) }
{
    if let Item::Hypothesis(hypothesis) = entry.item() {
        let mut copy = hypothesis.copy(alloc)?;
        copy.line = entry.line();
        hypotheses.push(copy)?;
    }
    Ok(())
}

fn add_phase(alloc: Global, phases: &mut Vec<PhaseDecl>, entry: &Entry<'_>) -> Result<(), NoMemory>
    ensures { OnOk result (phases.new.items ≡ phases.old.items ++ phase_of entry.now.line entry.now.item) }
{
    if let Item::Phase(phase) = entry.item() {
        let mut copy = phase.copy(alloc)?;
        copy.line = entry.line();
        phases.push(copy)?;
    }
    Ok(())
}

/// The search that an item is, or else the one before.
fn search_behind(before: Option<SearchDecl>, entry: &Entry<'_>) -> Option<SearchDecl>
    ensures { result ≡ search_behind before entry.now.line entry.now.item }
{
    match entry.item() {
        Item::Search(search) => Some(SearchDecl {
            line: entry.line(),
            ..*search
        }),
        _ => before,
    }
}

fn add_wish(
    index: &Index<'_, '_>,
    wishes: &mut Vec<CheckedWish>,
    item: &Item,
    focus: Option<Focus>,
) -> Result<(), NoMemory>
    requires { length index.now < 2 ^ 32 }
    ensures { OnOk result (wishes.new.items ≡ wishes.old.items ++ wish_of index.now item.now focus) }
{
    let Item::Wish(wish) = item else {
        return Ok(());
    };
    let Some(number) = index.metric_number(wish.metric.bytes()) else {
        return Ok(());
    };
    let Some(focus) = focus else {
        return Ok(());
    };
    wishes.push(CheckedWish {
        at: u64::from(wish.at),
        show: wish.show,
        metric: number as u32,
        focus,
    })?;
    Ok(())
}

impl ByKind {
    fn none(alloc: Global) -> ByKind
        ensures { (all : List Entry) → AreByKind all [] result }
    {
        ByKind {
            metrics: Vec::new(alloc),
            constraints: Vec::new(alloc),
            hypotheses: Vec::new(alloc),
            search: None,
            phases: Vec::new(alloc),
            wishes: Vec::new(alloc),
        }
    }

    /// Adds an item to those of its kind.
    fn add(
        &mut self,
        alloc: Global,
        index: &Index<'_, '_>,
        entry: &Entry<'_>,
    ) -> Result<(), NoMemory>
        requires { length index.now < 2 ^ 32 }
        ensures { OnOk result (AddsMore index.now entry.now self.old self.new) }
    {
        self.search = search_behind(self.search, entry);
        add_metric(alloc, &mut self.metrics, entry)?;
        add_constraint(alloc, &mut self.constraints, entry)?;
        add_hypothesis(alloc, &mut self.hypotheses, entry)?;
        add_phase(alloc, &mut self.phases, entry)?;
        add_wish(index, &mut self.wishes, entry.item(), entry.focus())
    }

    /// Adds all items, where there is none yet.
    fn fill(&mut self, alloc: Global, index: &Index<'_, '_>) -> Result<(), NoMemory>
        requires few { length index.now < 2 ^ 32 }
        requires none { AreByKind index.now [] self.old }
        ensures { OnOk result (AreByKind index.now index.now self.new) }
    {
        for entry in index.all() {
            self.add(alloc, index, entry)?;
        }
        Ok(())
    }

    /// The items, where they are all of these.
    fn checked(self) -> Checked
        ensures { (all : List Entry) → AreByKind all all self → result ≡ checked_of all }
    {
        Checked {
            metrics: Seq::from_vec(self.metrics),
            constraints: Seq::from_vec(self.constraints),
            hypotheses: Seq::from_vec(self.hypotheses),
            search: self.search,
            phases: Seq::from_vec(self.phases),
            wishes: Seq::from_vec(self.wishes),
        }
    }
}

/// What is returned for faultless items, of which there are fewer than 2^32.
pub(crate) fn checked(alloc: Global, index: &Index<'_, '_>) -> Result<Checked, CheckError>
    requires few { length index.now < 2 ^ 32 }
    requires faultless { first_fault index.now ≡ None }
    ensures { IsJudged index.now result }
{
    let mut items = ByKind::none(alloc);
    items.fill(alloc, index)?;
    Ok(items.checked())
}
