//! Copies of items.

ghost use Rattle.std.specs.Prelude.{◌≡◌, IfOk};

use crate::block_copies::blocks;
use crate::items::{Hypothesis, Item, PhaseDecl, SyncDecl, Wish};
use crate::metric::{Constraint, Metric};
use pn_types::{NoMemory, Text, copy_texts};
use std::alloc::Global;

/// A copy of a name, where there is one.
fn copy_name(alloc: Global, name: &Option<Text>) -> Result<Option<Text>, NoMemory>
    ensures { IfOk result (λ copy. copy ≡ name.now) }
{
    match name {
        Some(name) => Ok(Some(name.copy(alloc)?)),
        None => Ok(None),
    }
}

impl Metric {
    /// Returns an equal metric.
    ///
    /// # Errors
    ///
    /// `NoMemory` where memory runs out.
    pub fn copy(&self, alloc: Global) -> Result<Metric, NoMemory>
        ensures { IfOk result (λ copy. copy ≡ self.now) }
    {
        Ok(Metric {
            line: self.line,
            name: self.name.copy(alloc)?,
            units: self.units.copy(alloc)?,
            constraints: copy_texts(alloc, &self.constraints)?,
            timer: self.timer,
            initially: self.initially,
            blocks: blocks(alloc, &self.blocks)?,
        })
    }
}

impl Constraint {
    /// Returns an equal constraint.
    ///
    /// # Errors
    ///
    /// `NoMemory` where memory runs out.
    pub fn copy(&self, alloc: Global) -> Result<Constraint, NoMemory>
        ensures { IfOk result (λ copy. copy ≡ self.now) }
    {
        Ok(Constraint {
            line: self.line,
            name: self.name.copy(alloc)?,
            path: self.path.copy(alloc)?,
            replace: self.replace,
            initially: self.initially,
            blocks: blocks(alloc, &self.blocks)?,
        })
    }
}

impl Hypothesis {
    /// Returns an equal hypothesis.
    ///
    /// # Errors
    ///
    /// `NoMemory` where memory runs out.
    pub fn copy(&self, alloc: Global) -> Result<Hypothesis, NoMemory>
        ensures { IfOk result (λ copy. copy ≡ self.now) }
    {
        Ok(Hypothesis {
            line: self.line,
            name: self.name.copy(alloc)?,
            parent: copy_name(alloc, &self.parent)?,
            metric: self.metric.copy(alloc)?,
            threshold: self.threshold,
            axes: copy_texts(alloc, &self.axes)?,
        })
    }
}

impl PhaseDecl {
    /// Returns an equal phase.
    ///
    /// # Errors
    ///
    /// `NoMemory` where memory runs out.
    pub fn copy(&self, alloc: Global) -> Result<PhaseDecl, NoMemory>
        ensures { IfOk result (λ copy. copy ≡ self.now) }
    {
        Ok(PhaseDecl {
            line: self.line,
            name: self.name.copy(alloc)?,
            at: self.at,
        })
    }
}

impl SyncDecl {
    fn copy(&self, alloc: Global) -> Result<SyncDecl, NoMemory>
        ensures { IfOk result (λ copy. copy ≡ self.now) }
    {
        Ok(SyncDecl {
            line: self.line,
            name: self.name.copy(alloc)?,
        })
    }
}

impl Wish {
    fn copy(&self, alloc: Global) -> Result<Wish, NoMemory>
        ensures { IfOk result (λ copy. copy ≡ self.now) }
    {
        Ok(Wish {
            line: self.line,
            at: self.at,
            show: self.show,
            metric: self.metric.copy(alloc)?,
            focus: self.focus.copy(alloc)?,
        })
    }
}

impl Item {
    /// Returns an equal item.
    ///
    /// # Errors
    ///
    /// `NoMemory` where memory runs out.
    pub fn copy(&self, alloc: Global) -> Result<Item, NoMemory>
        ensures { IfOk result (λ copy. copy ≡ self.now) }
    {
        Ok(match self {
            Item::Include(include) => Item::Include(*include),
            Item::Sync(sync) => Item::Sync(sync.copy(alloc)?),
            Item::Metric(metric) => Item::Metric(metric.copy(alloc)?),
            Item::Constraint(constraint) => Item::Constraint(constraint.copy(alloc)?),
            Item::Hypothesis(hypothesis) => Item::Hypothesis(hypothesis.copy(alloc)?),
            Item::Search(search) => Item::Search(*search),
            Item::Phase(phase) => Item::Phase(phase.copy(alloc)?),
            Item::Wish(wish) => Item::Wish(wish.copy(alloc)?),
        })
    }
}
