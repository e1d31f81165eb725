//! The canonical text of metrics, constraints and hypotheses.

ghost use Rattle.std.specs.Prelude.{◌≡◌, ◌++◌, [], ◌∷◌, map, OnOk};
ghost use Rattle.std.specs.List.{flat_map};
ghost use Rattle.pn_text.specs.Words.{NameWord, SignWord};
ghost use Rattle.pn_text.specs.declared.token.Sign.TheVariants.{OpenBrace, Semicolon};
ghost use Rattle.mdl_parse.specs.Grammar.{keyword};
ghost use Rattle.mdl_parse.specs.ItemGrammar.{initially_words, constraint_head, parent_words, axes_words};
ghost use Rattle.mdl_parse.specs.PrintParts.{constraint_kind};
ghost use Rattle.mdl_parse.specs.Printing.{line_text, reference_line, base_words, metric_lines, constraint_lines, some_line, hypothesis_lines};

use crate::line::{Line, add_close, add_line, one_of};
use crate::print_blocks::{add_blocks, add_names};
use crate::print_items::add_number;
use crate::seen::Seen::{Name, Number, Path, Quoted, Sign};
use mdl_ast::{Constraint, Hypothesis, Metric};
use pn_text::Sign::{OpenBrace, Semicolon};
use pn_types::{NoMemory, Seq, Text};
use std::alloc::Global;

/// Adds a field with a name.
fn add_name<'a>(
    alloc: Global,
    out: &mut Vec<u8>,
    field: &'a [u8],
    name: &'a Text,
) -> Result<(), NoMemory>
    ensures { OnOk result (out.new.items
        ≡ out.old.items ++ line_text (1, keyword field.now ∷ NameWord name.now ∷ SignWord Semicolon ∷ [])) }
{
    add_line(
        alloc,
        out,
        1,
        &[Name(field), Name(name.bytes()), Sign(Semicolon)],
    )
}

/// Adds the line with which a part of this name begins.
fn add_opening<'a>(
    alloc: Global,
    out: &mut Vec<u8>,
    part: &'a [u8],
    name: &'a Text,
) -> Result<(), NoMemory>
    ensures { OnOk result (out.new.items ≡ out.old.items ++ line_text (0, keyword part.now ∷ NameWord name.now ∷ SignWord OpenBrace ∷ [])) }
{
    add_line(
        alloc,
        out,
        0,
        &[Name(part), Name(name.bytes()), Sign(OpenBrace)],
    )
}

/// Adds the line of a constraint that a metric takes.
fn add_reference(alloc: Global, out: &mut Vec<u8>, name: &Text) -> Result<(), NoMemory>
    ensures { OnOk result (out.new.items ≡ out.old.items ++ line_text (reference_line name.now)) }
{
    add_name(alloc, out, b"constraint", name)
}

/// Adds the lines of the constraints that a metric takes.
fn add_references(alloc: Global, out: &mut Vec<u8>, names: &[Text]) -> Result<(), NoMemory>
    ensures { OnOk result (out.new.items ≡ out.old.items ++ flat_map line_text (map reference_line names.now)) }
{
    for name in names {
        add_reference(alloc, out, name)?;
    }
    Ok(())
}

/// Adds what something is at first, where it is written.
fn add_initially(line: &mut Line<'_>, initially: Option<u32>) -> Result<(), NoMemory>
    ensures { OnOk result (line.new ≡ line.old ++ initially_words initially) }
{
    match initially {
        Some(number) => line.add(&[Name(b"initially"), Number(number)]),
        None => Ok(()),
    }
}

/// Adds the line that says what a metric is.
fn add_base(alloc: Global, out: &mut Vec<u8>, metric: &Metric) -> Result<(), NoMemory>
    ensures { OnOk result (out.new.items ≡ out.old.items ++ line_text (1, base_words metric.now)) }
{
    let kind = one_of(metric.timer, b"timer", b"counter");
    let mut line = Line::new(alloc);
    line.add(&[Name(b"base"), Name(b"is"), Name(kind)])?;
    add_initially(&mut line, metric.initially)?;
    line.add(&[Sign(OpenBrace)])?;
    line.write(alloc, out, 1)
}

/// Adds a metric.
#[tactic(auto, using(crate::proofs::LineTexts::lines_text))]
pub(crate) fn add_metric(alloc: Global, out: &mut Vec<u8>, metric: &Metric) -> Result<(), NoMemory>
    ensures { OnOk result (out.new.items ≡ out.old.items ++ flat_map line_text (metric_lines metric.now)) }
{
    let units = metric.units.bytes();
    add_opening(alloc, out, b"metric", &metric.name)?;
    add_line(
        alloc,
        out,
        1,
        &[Name(b"units"), Quoted(units), Sign(Semicolon)],
    )?;
    add_references(alloc, out, metric.constraints.as_slice())?;
    add_base(alloc, out, metric)?;
    add_blocks(alloc, out, 2, metric.blocks.as_slice())?;
    add_close(alloc, out, 1)?;
    add_close(alloc, out, 0)
}

/// Adds what a constraint is.
fn add_constraint_kind<'a>(line: &mut Line<'a>, constraint: &'a Constraint) -> Result<(), NoMemory>
    ensures { OnOk result (line.new ≡ line.old ++ constraint_kind constraint.now) }
{
    let name = constraint.name.bytes();
    let path = constraint.path.bytes();
    let kind = one_of(constraint.replace, b"replace", b"counter");
    line.add(&[
        Name(b"constraint"),
        Name(name),
        Path(path),
        Name(b"is"),
        Name(kind),
    ])
}

/// Adds the line with which a constraint begins.
fn add_constraint_head(
    alloc: Global,
    out: &mut Vec<u8>,
    constraint: &Constraint,
) -> Result<(), NoMemory>
    ensures { OnOk result (out.new.items ≡ out.old.items ++ line_text (0, constraint_head constraint.now ++ (SignWord OpenBrace ∷ []))) }
{
    let mut line = Line::new(alloc);
    add_constraint_kind(&mut line, constraint)?;
    add_initially(&mut line, constraint.initially)?;
    line.add(&[Sign(OpenBrace)])?;
    line.write(alloc, out, 0)
}

/// Adds a constraint.
#[tactic(auto, using(crate::proofs::LineTexts::lines_text))]
pub(crate) fn add_constraint(
    alloc: Global,
    out: &mut Vec<u8>,
    constraint: &Constraint,
) -> Result<(), NoMemory>
    ensures { OnOk result (out.new.items ≡ out.old.items ++ flat_map line_text (constraint_lines constraint.now)) }
{
    add_constraint_head(alloc, out, constraint)?;
    add_blocks(alloc, out, 1, constraint.blocks.as_slice())?;
    add_close(alloc, out, 0)
}

/// Adds the line of a hypothesis' parent, if it has one.
fn add_parent(alloc: Global, out: &mut Vec<u8>, parent: &Option<Text>) -> Result<(), NoMemory>
    ensures { OnOk result (out.new.items ≡ out.old.items ++ flat_map line_text (some_line 1 (parent_words parent.now))) }
{
    match parent {
        Some(name) => add_name(alloc, out, b"parent", name),
        None => Ok(()),
    }
}

/// Adds the line of the axes, if there are any.
fn add_axes(alloc: Global, out: &mut Vec<u8>, axes: &Seq<Text>) -> Result<(), NoMemory>
    ensures { OnOk result (out.new.items ≡ out.old.items ++ flat_map line_text (some_line 1 (axes_words axes.now))) }
{
    let axes = axes.as_slice();
    if axes.is_empty() {
        return Ok(());
    }
    let mut line = Line::new(alloc);
    line.add(&[Name(b"axes")])?;
    add_names(&mut line, axes)?;
    line.add(&[Sign(Semicolon)])?;
    line.write(alloc, out, 1)
}

/// Adds a hypothesis.
pub(crate) fn add_hypothesis(
    alloc: Global,
    out: &mut Vec<u8>,
    hypothesis: &Hypothesis,
) -> Result<(), NoMemory>
    ensures { OnOk result (out.new.items ≡ out.old.items ++ flat_map line_text (hypothesis_lines hypothesis.now)) }
{
    add_opening(alloc, out, b"hypothesis", &hypothesis.name)?;
    add_parent(alloc, out, &hypothesis.parent)?;
    add_name(alloc, out, b"metric", &hypothesis.metric)?;
    add_number(alloc, out, b"threshold", hypothesis.threshold)?;
    add_axes(alloc, out, &hypothesis.axes)?;
    add_close(alloc, out, 0)?;
    Ok(())
}
