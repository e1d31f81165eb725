//! The command `direct`.

ghost use Rattle.std.specs.Prelude.{◌≡◌, ◌≤◌, IfOk, length};
ghost use Rattle.std.specs.List.{AllByRecursion};
ghost use Rattle.code_points.specs.Procedures.{AreModulesGood, skipped_of};
ghost use Rattle.command_words.specs.Asked.{asked_direct};
ghost use Rattle.command_words.specs.Requests.{HasRanges, IsOrderInRange, direct};
ghost use Rattle.directives.specs.Applying.{IsAccepted};
ghost use Rattle.mdl_ast.specs.Small.{HasSmall};
ghost use Rattle.mdl_shipped.specs.Shipped.{shipped_conf};
ghost use Rattle.commands.specs.Directing.{MeansDirectives, AreDirectives, IsDirectDue, IsConfAfter, IsDirection, IsDirectRun};
ghost use Rattle.commands.specs.Given.{inputs_with, CanRun, IsUnscratched};
ghost use Rattle.commands.specs.Runs.{IsInOrder, IsSession, report_alone};
ghost use Rattle.commands.specs.FileReadings.{reads, Looks};
ghost use Rattle.pn_types.specs.Images.{IsImage};
ghost use Rattle.refusals.specs.Kinds.{fault_at};
ghost use Rattle.refusals.specs.Refusals.{Comes};
ghost use Rattle.session.specs.Given.{AreGiven};

use crate::files::read_file;
use crate::finding::{Found, find};
use crate::inputs::{Inputs, read_inputs};
use crate::opening::unopened;
use crate::preparing::{Prepared, prepare_found};
use crate::texts::Texts;
use command_words::{DirectRequest, TurnOrder};
use directives::{Directive, DirectiveError, apply, read_directives};
use mdl_ast::Conf;
use mdl_shipped::shipped;
use outside::Files;
use pn_types::{Image, Seq};
use refusals::{ConfFault, ConfKind, Fault, Refusal, directive_kind};
use report::report;
use resource_tree::Tree;
use std::alloc::Global;
use whole_run::{Progress, run_parts};

/// The greatest length of directives in bytes.
pub const DIRECTIVES_LIMIT: u64 = 1_048_576;

/// Returns the refusal of directives at a line and a column.
fn bad_directives(line: u32, col: u32, kind: ConfKind) -> Refusal
    ensures { result ≡ Refusal.Fault (Fault.BadDirectives (fault_at line col kind)) }
{
    Refusal::Fault(Fault::BadDirectives(ConfFault { line, col, kind }))
}

/// Returns the directives of a text.
fn directives_in(alloc: Global, text: &[u8]) -> Result<Seq<Directive>, Refusal>
    requires { length text.now ≤ DIRECTIVES_LIMIT }
    ensures { Comes result (MeansDirectives text.now) }
{
    match read_directives(alloc, text) {
        Ok(directives) => Ok(directives),
        Err(DirectiveError::Fault(fault)) => {
            Err(bad_directives(fault.line, fault.col, directive_kind(fault.kind)))
        }
        Err(DirectiveError::NoMemory) => Err(Refusal::NoMemory),
    }
}

/// Reads directives.
fn read_directions<F: Files>(
    alloc: Global,
    files: &mut F,
    name: &str,
) -> Result<Seq<Directive>, Refusal>
    ensures directives { Comes result (AreDirectives (reads (F.holds files.old) (F.faults files.old) (F.faults files.new)) name.now) }
    ensures looks { Looks F.holds F.faults files.old files.new result }
{
    let too_long = Fault::BadDirectives(ConfFault {
        line: 0,
        col: 0,
        kind: ConfKind::TooLong,
    });
    let text = read_file(alloc, files, name, DIRECTIVES_LIMIT, too_long)?;
    directives_in(alloc, text.as_slice())
}

/// Returns what directives make of a configuration that was checked over these resources.
fn directed(
    alloc: Global,
    conf: &Conf,
    tree: &Tree,
    directives: &[Directive],
) -> Result<Conf, Refusal>
    requires accepted { IsAccepted tree.now shipped_conf.items conf.now.items }
    requires few { length conf.now.items ≤ 1048576 }
    requires small { AllByRecursion HasSmall conf.now.items }
    ensures directed { Comes result (IsConfAfter conf.now directives.now) }
    ensures few { IfOk result (λ made. length made.items ≤ 4194304) }
    ensures small { IfOk result (λ made. AllByRecursion HasSmall made.items) }
{
    let shipped = shipped(alloc)?;
    match apply(alloc, conf, &shipped, tree, directives) {
        Ok(made) => Ok(made),
        Err(DirectiveError::Fault(fault)) => {
            Err(bad_directives(fault.line, fault.col, directive_kind(fault.kind)))
        }
        Err(DirectiveError::NoMemory) => Err(Refusal::NoMemory),
    }
}

/// Returns what is due of a session in this order.
fn direct_prepared<P: Progress>(
    alloc: Global,
    prepared: Prepared,
    order: TurnOrder,
    progress: &P,
) -> Result<Texts, Refusal>
    requires given { AreGiven prepared.inputs }
    requires skipped { prepared.skipped ≡ skipped_of prepared.inputs.image }
    requires order { IsOrderInRange order }
    ensures { Comes result (IsSession (IsInOrder order) report_alone prepared.inputs) }
{
    match run_parts(alloc, prepared.inputs, order.seed, order.quantum, progress) {
        Ok(parts) => {
            let text = report(alloc, &parts, prepared.skipped)?;
            Ok(Texts::output(alloc, text))
        }
        Err(fault) => Err(unopened(fault)),
    }
}

/// Returns what is due of a session of the image with what was found of it.
fn direct_found<P: Progress>(
    alloc: Global,
    request: &DirectRequest<'_>,
    image: Image,
    found: Found,
    progress: &P,
) -> Result<Texts, Refusal>
    requires ranges { HasRanges (direct (asked_direct request.now)) }
    requires skipped { found.skipped ≡ skipped_of image }
    requires runs { CanRun image request.now.session.settings.harts found }
    ensures { Comes result (IsSession (IsInOrder request.now.order) report_alone (inputs_with image found request.now.session.settings)) }
{
    let prepared = prepare_found(alloc, image, found, request.session.settings)?;
    direct_prepared(alloc, prepared, request.order, progress)
}

/// Returns what is due of a run of the image under a configuration.
fn run_directed<P: Progress>(
    alloc: Global,
    request: &DirectRequest<'_>,
    image: Image,
    conf: &Conf,
    progress: &P,
) -> Result<Texts, Refusal>
    requires ranges { HasRanges (direct (asked_direct request.now)) }
    requires image { IsImage image }
    requires unscratched { IsUnscratched image }
    requires modules { AreModulesGood image }
    requires few { length conf.now.items ≤ 4194304 }
    requires small { AllByRecursion HasSmall conf.now.items }
    ensures { Comes result (IsDirectRun (asked_direct request.now) image conf.now) }
{
    let harts = request.session.settings.harts;
    let found = find(alloc, &image, harts, conf)?;
    direct_found(alloc, request, image, found, progress)
}

/// Returns what is due of a program and a configuration that was checked, under directives.
fn follow_directions<F: Files, P: Progress>(
    alloc: Global,
    request: &DirectRequest<'_>,
    inputs: Inputs,
    tree: &Tree,
    files: &mut F,
    progress: &P,
) -> Result<Texts, Refusal>
    requires ranges { HasRanges (direct (asked_direct request.now)) }
    requires image { IsImage inputs.image }
    requires unscratched { IsUnscratched inputs.image }
    requires modules { AreModulesGood inputs.image }
    requires few { length inputs.conf.items ≤ 1048576 }
    requires small { AllByRecursion HasSmall inputs.conf.items }
    requires accepted { IsAccepted tree.now shipped_conf.items inputs.conf.items }
    ensures due { Comes result
        (IsDirection (asked_direct request.now) (reads (F.holds files.old) (F.faults files.old) (F.faults files.new)) inputs) }
    ensures looks { Looks F.holds F.faults files.old files.new result }
{
    let directives = read_directions(alloc, files, request.directives)?;
    let conf = directed(alloc, &inputs.conf, tree, directives.as_slice())?;
    run_directed(alloc, request, inputs.image, &conf, progress)
}

/// Returns what is due for `direct`.
///
/// # Errors
///
/// `Refusal::NoMemory` where memory runs out, or the first fault that is due.
pub fn direct<F: Files, P: Progress>(
    alloc: Global,
    request: &DirectRequest<'_>,
    files: &mut F,
    progress: &P,
) -> Result<Texts, Refusal>
    requires ranges { HasRanges (direct (asked_direct request.now)) }
    ensures due { Comes result
        (IsDirectDue (asked_direct request.now) (reads (F.holds files.old) (F.faults files.old) (F.faults files.new))) }
    ensures looks { Looks F.holds F.faults files.old files.new result }
{
    let session = request.session;
    let inputs = read_inputs(alloc, files, session.program, session.conf)?;
    let found = find(alloc, &inputs.image, session.settings.harts, &inputs.conf)?;
    follow_directions(alloc, request, inputs, &found.tree, files, progress)
}
