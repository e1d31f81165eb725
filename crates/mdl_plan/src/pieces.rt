//! The insertions of a metric at a focus, in the order in which their statements stand at a point.

ghost use Rattle.std.specs.Prelude.{◌≡◌, ◌≤◌, ◌<◌, ◌+◌, ◌++◌, ◌∷◌, [], IfOk, OnOk, length, map, unwrap_or};
ghost use Rattle.std.specs.List.{filter};
ghost use Rattle.std.specs.Option.{option_map};
ghost use Rattle.mdl_plan.specs.Busy.{busy, is_put_there};
ghost use Rattle.mdl_plan.specs.Pieces.{base_blocks, base_initially, counter_pieces, piece, pieces_of};
ghost use Rattle.mdl_plan.specs.Pieces as spec;

use crate::active::Active;
use mdl_ast::{Block, Constraint, Insertion, Metric, Set};
use pn_types::NoMemory;
use std::alloc::Global;
use std::marker::Model;

/// An insertion, the procedures that it is for, and the number of the variable that its statements use.
#[derive(Drop)]
pub(crate) struct Piece<'a> {
    variable: u32,
    set: &'a Set,
    insertion: &'a Insertion,
}

impl<'a> Model for Piece<'a> {
    ghost use Rattle.mdl_plan.specs.Pieces.{Piece, piece};

    ghost Value = { Piece };

    ghost view = { λ p. piece p.variable p.set.now p.insertion.now };
}

impl<'a> Piece<'a> {
    /// The number of the variable that its statements use.
    pub(crate) fn variable(&self) -> u32
        ensures { result ≡ self.now.variable }
    {
        self.variable
    }

    /// The procedures that it is for.
    pub(crate) fn set(&self) -> &'a Set
        ensures { result.now ≡ self.now.set }
    {
        self.set
    }

    /// The insertion.
    pub(crate) fn insertion(&self) -> &'a Insertion
        ensures { result.now ≡ self.now.insertion }
    {
        self.insertion
    }
}

/// Adds a piece, if it has statements and goes there: before what is there, or after it.
fn add_piece<'a>(
    pieces: &mut Vec<Piece<'a>>,
    prepend: bool,
    piece: Piece<'a>,
) -> Result<(), NoMemory>
    ensures { OnOk result (pieces.new.items ≡ pieces.old.items ++ filter (is_put_there prepend) (piece.entry ∷ [])) }
{
    let insertion = piece.insertion();
    if insertion.prepend == prepend && !insertion.stmts.as_slice().is_empty() {
        pieces.push(piece)?;
    }
    Ok(())
}

/// Adds the insertions of a block that go there.
fn add_block<'a>(
    pieces: &mut Vec<Piece<'a>>,
    prepend: bool,
    variable: u32,
    block: &'a Block,
) -> Result<(), NoMemory>
    ensures { OnOk result (pieces.new.items
        ≡ pieces.old.items ++ filter (is_put_there prepend) (map (piece variable block.now.set) block.now.insertions)) }
{
    for insertion in block.insertions.as_slice() {
        let piece = Piece {
            variable,
            set: &block.set,
            insertion,
        };
        add_piece(pieces, prepend, piece)?;
    }
    Ok(())
}

/// Adds the insertions of blocks that go there.
fn add_blocks<'a>(
    pieces: &mut Vec<Piece<'a>>,
    prepend: bool,
    variable: u32,
    blocks: &'a [Block],
) -> Result<(), NoMemory>
    ensures { OnOk result (pieces.new.items ≡ pieces.old.items ++ filter (is_put_there prepend) (pieces_of variable blocks.now)) }
{
    for block in blocks {
        add_block(pieces, prepend, variable, block)?;
    }
    Ok(())
}

/// Adds the insertions of counters that go there.
fn add_counters<'a>(
    pieces: &mut Vec<Piece<'a>>,
    prepend: bool,
    counters: &[&'a Constraint],
) -> Result<(), NoMemory>
    requires { length counters.now ≤ 2 }
    ensures { OnOk result (pieces.new.items
        ≡ pieces.old.items ++ filter (is_put_there prepend) (counter_pieces 1 (map (λ c. c.now) counters.now))) }
{
    let mut variable = 1;
    for counter in counters {
        let blocks = counter.blocks.as_slice();
        add_blocks(pieces, prepend, variable, blocks)?;
        variable += 1;
    }
    Ok(())
}

/// The metric's own blocks, or what stands in their place.
fn base_blocks<'a>(metric: &'a Metric, replacement: Option<&'a Constraint>) -> &'a [Block]
    ensures { result.now ≡ base_blocks metric.now (option_map (λ c. c.now) replacement.entry) }
{
    match replacement {
        Some(constraint) => constraint.blocks.as_slice(),
        None => metric.blocks.as_slice(),
    }
}

/// What the metric's own variable is at first, or what stands in its place.
pub(crate) fn base_initially(metric: &Metric, replacement: Option<&Constraint>) -> Option<u32>
    ensures { result ≡ base_initially metric.now (option_map (λ c. c.now) replacement.entry) }
{
    match replacement {
        Some(constraint) => constraint.initially,
        None => metric.initially,
    }
}

/// The insertions of a metric that have statements, in the order of these. The counters are the active ones.
pub(crate) fn pieces<'a>(
    alloc: Global,
    metric: &'a Metric,
    active: &Active<'a>,
    counters: &[&'a Constraint],
) -> Result<Vec<Piece<'a>>, NoMemory>
    requires few { length counters.now ≤ 2 }
    requires active { map (λ c. c.now) counters.now ≡ spec.counters active.now }
    ensures { IfOk result (λ pieces. pieces.items ≡ busy (spec.pieces metric.now active.now)) }
{
    let base = base_blocks(metric, active.replacement());
    let mut pieces = Vec::new(alloc);
    add_counters(&mut pieces, true, counters)?;
    add_blocks(&mut pieces, true, 0, base)?;
    add_blocks(&mut pieces, false, 0, base)?;
    add_counters(&mut pieces, false, counters)?;
    Ok(pieces)
}
