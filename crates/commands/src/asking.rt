//! The command `ask`.

ghost use Rattle.std.specs.Prelude.{◌≡◌, ◌<◌, ◌≤◌, ◌^◌, ◌∷◌, ◌++◌, [], is_some, length, map, Some, IfOk, OnOk};
ghost use Rattle.std.specs.List.{AllByRecursion, list_all};
ghost use Rattle.code_points.specs.Procedures.{AreModulesGood, AreProcsOf, procedures_of};
ghost use Rattle.command_words.specs.Asked.{asked_ask};
ghost use Rattle.command_words.specs.Requests.{HasRanges, IsBlocksInRange, ask};
ghost use Rattle.commands.specs.Asking.{AreCodeFoci, AreFoci, IsAsk, IsAskAt, IsAskDue, IsAskOf, children_foci, code_foci, executed, executed_in, or_one, shipped_metrics};
ghost use Rattle.commands.specs.AskedChildren.{child_at};
ghost use Rattle.commands.specs.FileReadings.{reads, Looks};
ghost use Rattle.commands.specs.Given.{IsUnscratched};
ghost use Rattle.commands.specs.Inputs.{MeansConf};
ghost use Rattle.commands.specs.Plans.{metric_named};
ghost use Rattle.mdl_ast.specs.Small.{HasSmall};
ghost use Rattle.pn_types.specs.Images.{IsImage};
ghost use Rattle.profile_text.specs.ProcedureRows.{rows_in};
ghost use Rattle.profile_text.specs.Totals.{Fits};
ghost use Rattle.refusals.specs.Refusals.{Comes};
ghost use Rattle.resource_tree.specs.Foci.{canonical, children};

use crate::configuration::{bad_configuration, configuration};
use crate::finding::{Found, find};
use crate::inputs::read_program;
use crate::planning::{metric_number, select};
use crate::profiling::{profiled, starts};
use crate::texts::Texts;
use command_words::{AskRequest, NodeKind, ProfileSource, metric_names};
use mdl_ast::{Conf, Metric};
use outside::Files;
use pair_wishes::{AskedInterval, ask_text, module_foci, procedure_foci};
use pn_types::{Axis, Focus, Image, NoMemory, Proc, Seq, Text};
use profile_text::{ProcedureRow, rows_by_ticks, text_with_profile};
use refusals::{ConfKind, Refusal};
use resource_tree::Tree;
use std::alloc::Global;
use word_counts::Profile;

/// The configuration that has the shipped metrics alone.
const SHIPPED_METRICS: &[u8] = b"include metrics;\n";

/// Returns whether a name is that of a metric.
fn is_metric(metrics: &[Metric], name: &[u8]) -> bool
    requires { length metrics.now < 2 ^ 32 }
    ensures { result ≡ is_some (metric_named metrics.now name.now) }
{
    metric_number(metrics, name).is_some()
}

/// Returns whether each name is that of a metric.
fn are_metrics(metrics: &[Metric], names: &[&[u8]]) -> bool
    requires { length metrics.now < 2 ^ 32 }
    ensures { result ≡ list_all (λ name. is_some (metric_named metrics.now name)) (map (λ name. name.now) names.now) }
{
    for name in names {
        if !is_metric(metrics, name) {
            return false;
        }
    }
    true
}

/// Adds a child of a focus, if there is one.
fn add_child(
    alloc: Global,
    foci: &mut Vec<Text>,
    tree: &Tree,
    focus: &Focus,
    axis: Axis,
    number: u32,
) -> Result<(), NoMemory>
    ensures { OnOk result (foci.new.items ≡ foci.old.items ++ child_at tree.now focus.now axis number) }
{
    if let Some(child) = tree.child(focus, axis, number) {
        foci.push(tree.focus_text(alloc, &child)?)?;
    }
    Ok(())
}

/// Returns the children of a focus on an axis.
#[tactic(auto, using(crate::proofs::AskedFoci::with_child))]
fn children(alloc: Global, tree: &Tree, focus: &Focus, axis: Axis) -> Result<Vec<Text>, NoMemory>
    ensures { IfOk result (λ foci. foci.items ≡ map (canonical tree.now) (children tree.now focus.now axis)) }
{
    let mut foci = Vec::new(alloc);
    for number in 0..tree.child_count(focus, axis) {
        add_child(alloc, &mut foci, tree, focus, axis, number)?;
    }
    Ok(foci)
}

/// Returns foci, or one in place of none.
fn or_one(foci: Vec<Text>, focus: Text) -> Result<Vec<Text>, NoMemory>
    ensures { IfOk result (λ all. all.items ≡ or_one focus foci.items) }
{
    let mut foci = foci;
    if foci.is_empty() {
        foci.push(focus)?;
    }
    Ok(foci)
}

/// Returns the procedures that were executed.
fn executed<'a>(alloc: Global, rows: &[ProcedureRow<'a>]) -> Result<Vec<&'a Proc>, NoMemory>
    ensures { IfOk result (λ procs. map (λ proc. proc.now) procs.items ≡ executed_in (rows_in rows.now)) }
{
    let mut procs = Vec::new(alloc);
    for row in rows {
        if row.ticks > 0 {
            procs.push(row.proc)?;
        }
    }
    Ok(procs)
}

/// Returns the foci of the procedures that were executed, or of their modules, within a focus, or itself where there are none.
fn code_foci(
    alloc: Global,
    image: &Image,
    procs: &[Proc],
    profile: &Profile,
    by_module: bool,
    focus: Text,
) -> Result<Vec<Text>, NoMemory>
    requires image { IsImage image.now }
    requires procs { procs.now ≡ procedures_of image.now }
    requires are_procs { AreProcsOf image.now procs.now }
    requires fits { Fits image.now profile.now }
    ensures { IfOk result (λ foci. foci.items ≡ code_foci by_module focus (executed image.now profile.now)) }
{
    let text = text_with_profile(alloc, image, procs, profile)?;
    let rows = rows_by_ticks(alloc, &text)?;
    let executed = executed(alloc, &rows)?;
    let foci = if by_module {
        module_foci(alloc, focus.bytes(), &executed)?
    } else {
        procedure_foci(alloc, focus.bytes(), &executed)?
    };
    or_one(foci, focus)
}

/// Returns these foci, as a profile of the program's run tells.
fn profiled_foci(
    alloc: Global,
    request: &AskRequest<'_>,
    image: &Image,
    procs: &[Proc],
    by_module: bool,
    focus: Text,
) -> Result<Seq<Text>, Refusal>
    requires image { IsImage image.now }
    requires unscratched { IsUnscratched image.now }
    requires ranges { IsBlocksInRange (asked_ask request.now).counted }
    requires procs { procs.now ≡ procedures_of image.now }
    requires are_procs { AreProcsOf image.now procs.now }
    ensures { Comes result (AreCodeFoci by_module (asked_ask request.now) image.now focus) }
{
    let source = ProfileSource {
        counted: request.counted,
        also: None,
    };
    let starts = starts(alloc, image, &[])?;
    let profile = profiled(alloc, &source, image, &starts)?;
    let foci = code_foci(alloc, image, procs, &profile, by_module, focus)?;
    Ok(Seq::from_vec(foci))
}

/// Returns the children of a focus on an axis, or itself where it has none.
fn children_foci(
    alloc: Global,
    tree: &Tree,
    focus: &Focus,
    axis: Axis,
) -> Result<Seq<Text>, NoMemory>
    ensures { IfOk result (λ foci. foci ≡ children_foci tree.now focus.now axis) }
{
    let foci = children(alloc, tree, focus, axis)?;
    let own = tree.focus_text(alloc, focus)?;
    Ok(Seq::from_vec(or_one(foci, own)?))
}

/// Returns the foci that are asked for, below a focus.
fn foci(
    alloc: Global,
    request: &AskRequest<'_>,
    image: &Image,
    found: &Found,
    focus: &Focus,
) -> Result<Seq<Text>, Refusal>
    requires image { IsImage image.now }
    requires unscratched { IsUnscratched image.now }
    requires ranges { IsBlocksInRange (asked_ask request.now).counted }
    requires procs { found.now.procs ≡ procedures_of image.now }
    requires are_procs { AreProcsOf image.now found.now.procs }
    ensures { Comes result (AreFoci request.now.each (asked_ask request.now) image.now found.now.tree focus.now) }
{
    let own = found.tree.focus_text(alloc, focus)?;
    let procs = found.procs.as_slice();
    match request.each {
        None => Ok(Seq::from_vec(or_one(Vec::new(alloc), own)?)),
        Some(NodeKind::Procedure) => profiled_foci(alloc, request, image, procs, false, own),
        Some(NodeKind::Module) => profiled_foci(alloc, request, image, procs, true, own),
        Some(NodeKind::Lock) => Ok(children_foci(alloc, &found.tree, focus, Axis::SyncObject)?),
        Some(NodeKind::Hart) => Ok(children_foci(alloc, &found.tree, focus, Axis::Machine)?),
    }
}

/// Returns the configuration that asks for metrics of these names below a focus.
fn ask_at(
    alloc: Global,
    request: &AskRequest<'_>,
    image: &Image,
    found: &Found,
    names: &[&[u8]],
    focus: &Focus,
) -> Result<Texts, Refusal>
    requires image { IsImage image.now }
    requires unscratched { IsUnscratched image.now }
    requires ranges { IsBlocksInRange (asked_ask request.now).counted }
    requires procs { found.now.procs ≡ procedures_of image.now }
    requires are_procs { AreProcsOf image.now found.now.procs }
    ensures { Comes result (IsAskAt (asked_ask request.now) image.now found.now.tree (map (λ name. name.now) names.now) focus.now) }
{
    let foci = foci(alloc, request, image, found, focus)?;
    let interval = AskedInterval {
        from: request.interval.from,
        until: request.interval.until,
    };
    let text = ask_text(alloc, names, foci.as_slice(), request.limit, interval)?;
    Ok(Texts::output(alloc, text))
}

/// Returns what is due for `ask` of a program. The names are looked for first, and then what the text of the focus selects.
fn ask_found(
    alloc: Global,
    request: &AskRequest<'_>,
    image: &Image,
    found: &Found,
) -> Result<Texts, Refusal>
    requires image { IsImage image.now }
    requires unscratched { IsUnscratched image.now }
    requires ranges { IsBlocksInRange (asked_ask request.now).counted }
    requires procs { found.now.procs ≡ procedures_of image.now }
    requires are_procs { AreProcsOf image.now found.now.procs }
    requires metrics { length found.now.checked.metrics < 2 ^ 32 }
    ensures { Comes result (IsAsk (asked_ask request.now) image.now found.now) }
{
    let names = metric_names(alloc, request.metrics)?;
    if !are_metrics(found.checked.metrics.as_slice(), &names) {
        return Err(bad_configuration(0, 0, ConfKind::UnknownName));
    }
    let focus = select(found, request.under)?;
    ask_at(alloc, request, image, found, &names, &focus)
}

/// Returns the configuration that has the shipped metrics alone.
fn shipped_configuration(alloc: Global) -> Result<Conf, Refusal>
    ensures means { Comes result (MeansConf shipped_metrics) }
    ensures few { IfOk result (λ conf. length conf.items ≤ 1048576) }
    ensures small { IfOk result (λ conf. AllByRecursion HasSmall conf.items) }
{
    configuration(alloc, SHIPPED_METRICS)
}

/// Returns what is due for `ask` of an image, under the shipped metrics.
fn ask_of(alloc: Global, request: &AskRequest<'_>, image: &Image) -> Result<Texts, Refusal>
    requires image { IsImage image.now }
    requires modules { AreModulesGood image.now }
    requires unscratched { IsUnscratched image.now }
    requires ranges { HasRanges (ask (asked_ask request.now)) }
    ensures { Comes result (IsAskOf (asked_ask request.now) image.now) }
{
    let conf = shipped_configuration(alloc)?;
    let found = find(alloc, image, request.counted.harts, &conf)?;
    ask_found(alloc, request, image, &found)
}

/// Returns what is due for `ask`.
///
/// # Errors
///
/// `Refusal::NoMemory` where memory runs out, or the first fault that is due.
pub fn ask<F: Files>(
    alloc: Global,
    request: &AskRequest<'_>,
    files: &mut F,
) -> Result<Texts, Refusal>
    requires ranges { HasRanges (ask (asked_ask request.now)) }
    ensures due { Comes result (IsAskDue (asked_ask request.now) (reads (F.holds files.old) (F.faults files.old) (F.faults files.new))) }
    ensures looks { Looks F.holds F.faults files.old files.new result }
{
    let image = read_program(alloc, files, request.counted.program)?;
    ask_of(alloc, request, &image)
}
