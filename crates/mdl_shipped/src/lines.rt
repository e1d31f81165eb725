//! A configuration with every line 0.

ghost use Rattle.std.specs.Prelude.{◌≡◌, IfOk, map};
ghost use Rattle.mdl_parse.specs.ButLines.{statement_but_line, insertion_but_lines, block_but_lines, metric_but_lines, constraint_but_lines, hypothesis_but_line, item_but_lines, but_lines};

use mdl_ast::{
    Block, Conf, Constraint, Hypothesis, Include, Insertion, Item, Metric, PhaseDecl, SearchDecl,
    Statement, SyncDecl, Wish,
};
use pn_types::{NoMemory, Seq};
use std::alloc::Global;

/// The statement with line 0.
fn statement_but_line(statement: Statement) -> Statement
    ensures { result ≡ statement_but_line statement }
{
    Statement {
        line: 0,
        conds: statement.conds,
        act: statement.act,
    }
}

/// The insertion with every line 0.
fn insertion_but_lines(alloc: Global, insertion: Insertion) -> Result<Insertion, NoMemory>
    ensures { IfOk result (λ made. made ≡ insertion_but_lines insertion) }
{
    let mut stmts = Vec::new(alloc);
    for statement in insertion.stmts.into_vec() {
        stmts.push(statement_but_line(statement))?;
    }
    Ok(Insertion {
        line: 0,
        prepend: insertion.prepend,
        kind: insertion.kind,
        constrained: insertion.constrained,
        stmts: Seq::from_vec(stmts),
    })
}

/// The block with every line 0.
fn block_but_lines(alloc: Global, block: Block) -> Result<Block, NoMemory>
    ensures { IfOk result (λ made. made ≡ block_but_lines block) }
{
    let mut insertions = Vec::new(alloc);
    for insertion in block.insertions.into_vec() {
        insertions.push(insertion_but_lines(alloc, insertion)?)?;
    }
    Ok(Block {
        line: 0,
        set: block.set,
        insertions: Seq::from_vec(insertions),
    })
}

/// The blocks with every line 0.
fn blocks_but_lines(alloc: Global, blocks: Seq<Block>) -> Result<Seq<Block>, NoMemory>
    ensures { IfOk result (λ made. made ≡ map block_but_lines blocks) }
{
    let mut all = Vec::new(alloc);
    for block in blocks.into_vec() {
        all.push(block_but_lines(alloc, block)?)?;
    }
    Ok(Seq::from_vec(all))
}

/// The metric with every line 0.
fn metric_but_lines(alloc: Global, metric: Metric) -> Result<Metric, NoMemory>
    ensures { IfOk result (λ made. made ≡ metric_but_lines metric) }
{
    Ok(Metric {
        line: 0,
        name: metric.name,
        units: metric.units,
        constraints: metric.constraints,
        timer: metric.timer,
        initially: metric.initially,
        blocks: blocks_but_lines(alloc, metric.blocks)?,
    })
}

/// The constraint with every line 0.
fn constraint_but_lines(alloc: Global, constraint: Constraint) -> Result<Constraint, NoMemory>
    ensures { IfOk result (λ made. made ≡ constraint_but_lines constraint) }
{
    Ok(Constraint {
        line: 0,
        name: constraint.name,
        path: constraint.path,
        replace: constraint.replace,
        initially: constraint.initially,
        blocks: blocks_but_lines(alloc, constraint.blocks)?,
    })
}

/// The hypothesis with line 0.
fn hypothesis_but_line(hypothesis: Hypothesis) -> Hypothesis
    ensures { result ≡ hypothesis_but_line hypothesis }
{
    Hypothesis {
        line: 0,
        name: hypothesis.name,
        parent: hypothesis.parent,
        metric: hypothesis.metric,
        threshold: hypothesis.threshold,
        axes: hypothesis.axes,
    }
}

/// The item with every line 0.
fn item_but_lines(alloc: Global, item: Item) -> Result<Item, NoMemory>
    ensures { IfOk result (λ made. made ≡ item_but_lines item) }
{
    Ok(match item {
        Item::Include(include) => Item::Include(Include {
            line: 0,
            metrics: include.metrics,
        }),
        Item::Sync(sync) => Item::Sync(SyncDecl {
            line: 0,
            name: sync.name,
        }),
        Item::Metric(metric) => Item::Metric(metric_but_lines(alloc, metric)?),
        Item::Constraint(constraint) => Item::Constraint(constraint_but_lines(alloc, constraint)?),
        Item::Hypothesis(hypothesis) => Item::Hypothesis(hypothesis_but_line(hypothesis)),
        Item::Search(search) => Item::Search(SearchDecl {
            line: 0,
            window: search.window,
            cost: search.cost,
            observed: search.observed,
        }),
        Item::Phase(phase) => Item::Phase(PhaseDecl {
            line: 0,
            name: phase.name,
            at: phase.at,
        }),
        Item::Wish(wish) => Item::Wish(Wish {
            line: 0,
            at: wish.at,
            show: wish.show,
            metric: wish.metric,
            focus: wish.focus,
        }),
    })
}

/// The configuration with every line 0.
pub(crate) fn but_lines(alloc: Global, conf: Conf) -> Result<Conf, NoMemory>
    ensures { IfOk result (λ made. made ≡ but_lines conf) }
{
    let mut items = Vec::new(alloc);
    for item in conf.items.into_vec() {
        items.push(item_but_lines(alloc, item)?)?;
    }
    Ok(Conf {
        items: Seq::from_vec(items),
    })
}
