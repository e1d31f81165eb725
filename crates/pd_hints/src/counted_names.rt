//! What a configuration counts by name.

use crate::texts::name_text;
use mdl_ast::{Block, Conf, Item, Set};
use pn_types::NoMemory;
use std::alloc::Global;

/// The procedures that the shipped metrics count.
pub(crate) const COUNTED: [&str; 4] = ["lock_acquire", "barrier_wait", "read", "write"];

/// A name that a `foreach` lists, which begins at a line.
#[derive(Clone, Copy, Drop)]
pub(crate) struct ListedName<'a> {
    pub(crate) line: u32,
    pub(crate) name: &'a str,
}

/// What a configuration counts by name.
#[derive(Drop)]
pub(crate) struct CountedNames<'a> {
    /// The names that its own items list.
    pub(crate) listed: Vec<ListedName<'a>>,
    /// Whether it takes the shipped metrics.
    pub(crate) has_shipped: bool,
}

impl<'a> CountedNames<'a> {
    /// Adds the names that a block lists.
    fn add_block(&mut self, block: &'a Block) -> Result<(), NoMemory> {
        let Set::Names(names) = &block.set else {
            return Ok(());
        };
        for name in names.as_slice() {
            self.listed.push(ListedName {
                line: block.line,
                name: name_text(name.bytes()),
            })?;
        }
        Ok(())
    }

    /// Adds the names that blocks list.
    fn add_blocks(&mut self, blocks: &'a [Block]) -> Result<(), NoMemory> {
        for block in blocks {
            self.add_block(block)?;
        }
        Ok(())
    }

    /// Returns what a configuration counts.
    pub(crate) fn of(alloc: Global, conf: &'a Conf) -> Result<CountedNames<'a>, NoMemory> {
        let mut counted = CountedNames {
            listed: Vec::new(alloc),
            has_shipped: false,
        };
        for item in conf.items.as_slice() {
            match item {
                Item::Include(include) => counted.has_shipped |= include.metrics,
                Item::Metric(metric) => counted.add_blocks(metric.blocks.as_slice())?,
                Item::Constraint(constraint) => counted.add_blocks(constraint.blocks.as_slice())?,
                _ => {}
            }
        }
        Ok(counted)
    }

    /// Returns whether a procedure of this name is counted, by the shipped metrics or by the configuration's own.
    pub(crate) fn counts(&self, name: &str) -> bool {
        COUNTED.contains(&name) || self.listed.iter().any(|listed| listed.name == name)
    }
}
