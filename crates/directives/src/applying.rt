//! From a configuration and directives to the configuration that they make of it.

ghost use Rattle.std.specs.Prelude.{◌≡◌, ◌≤◌, true, length, Ok, Err, IfOk, IfErr, OnOk};
ghost use Rattle.std.specs.List.{AllByRecursion};
ghost use Rattle.mdl_ast.specs.Small.{HasSmall};
ghost use Rattle.mdl_check.specs.Placed.{placed_items};
ghost use Rattle.mdl_check.specs.Checking.{prefixes_of};
ghost use Rattle.directives.specs.Hypotheses.{has_hypothesis};
ghost use Rattle.directives.specs.Acts.{name_of, is_astray, kind_of, items_after_act, applied};
ghost use Rattle.directives.specs.Applying.{IsAccepted};
ghost use Rattle.directives.specs.Meaning.{DirectiveRefuses};

use crate::directive::{Directive, DirectiveAct};
use crate::expansion::expanded;
use crate::fault::{DirectiveError, DirectiveFault, DirectiveKind};
use crate::standing::Standing;
use mdl_ast::Conf;
use pn_types::{NoMemory, Seq, Text};
use resource_tree::Tree;
use std::alloc::Global;

/// The name of the hypothesis on which a directive acts.
fn name_of(act: &DirectiveAct) -> &Text
    ensures { result.now ≡ name_of act.now }
{
    match act {
        DirectiveAct::Prune(name)
        | DirectiveAct::PruneAxis(name, _)
        | DirectiveAct::Threshold(name, _)
        | DirectiveAct::First(name) => name,
    }
}

/// Whether the act is on an axis along which the hypothesis isn't refined.
fn is_astray(act: &DirectiveAct, standing: &Standing) -> bool
    ensures { result ≡ is_astray act.now standing.now }
{
    match act {
        DirectiveAct::PruneAxis(name, axis) => !standing.has_axis(name.bytes(), axis.bytes()),
        _ => false,
    }
}

/// What is wrong with an act on these items.
fn kind_of(act: &DirectiveAct, standing: &Standing) -> Option<DirectiveKind>
    ensures { result ≡ kind_of act.now standing.now }
{
    if !standing.stands(name_of(act).bytes()) {
        Some(DirectiveKind::UnknownName)
    } else if is_astray(act, standing) {
        Some(DirectiveKind::WrongKind)
    } else {
        None
    }
}

/// Does to the items what a directive says.
fn act_on(alloc: Global, standing: &mut Standing, act: &DirectiveAct) -> Result<(), NoMemory>
    requires { has_hypothesis (name_of act.now) standing.old ≡ true }
    ensures { OnOk result (standing.new ≡ items_after_act act.now standing.old) }
{
    match act {
        DirectiveAct::Prune(name) => standing.prune(alloc, name.bytes()),
        DirectiveAct::PruneAxis(name, axis) => standing.drop_axis(
            alloc,
            name.bytes(),
            axis.bytes(),
        ),
        DirectiveAct::Threshold(name, threshold) => {
            standing.set_threshold(name.bytes(), *threshold);
            Ok(())
        }
        DirectiveAct::First(name) => standing.put_first(name.bytes()),
    }
}

/// Returns the configuration that directives make of one that the check accepts with these shipped items over this tree.
///
/// `include hypotheses` is replaced by the shipped hypotheses at its line, and then the directives act in their order:
///
/// - `prune H` takes away the hypothesis, and all that have it as an ancestor;
/// - `prune H axis A` takes the axis from those of the hypothesis;
/// - `threshold H N` sets its threshold;
/// - `first H` puts it before all other items, which keep their order.
///
/// The check accepts what is made, and the names of objects begin as they did. The tree is an argument for this alone.
///
/// # Errors
///
/// Out of memory, or `UnknownName` at the first directive whose name is no hypothesis that still stands, and `WrongKind` at
/// the first whose axis isn't among those of its hypothesis; the line is that of the directive, and the column 0.
pub fn apply(
    alloc: Global,
    conf: &Conf,
    shipped: &Conf,
    tree: &Tree,
    directives: &[Directive],
) -> Result<Conf, DirectiveError>
    requires { IsAccepted tree.now shipped.now.items conf.now.items }
    ensures applied { IfOk result (λ made. applied shipped.now.items conf.now.items directives.now ≡ Ok made.items) }
    ensures fault { IfErr result (λ e. DirectiveRefuses e (λ fault. applied shipped.now.items conf.now.items directives.now ≡ Err fault)) }
    // The check accepts what is made.
    ensures accepted { IfOk result (λ made. IsAccepted tree.now shipped.now.items made.items) }
    // The objects of the tree come from these.
    ensures prefixes { IfOk result (λ made. prefixes_of shipped.now.items made.items ≡ prefixes_of shipped.now.items conf.now.items) }
    // The check asks that there are few items, and tells more where their statements are small.
    ensures few { IfOk result (λ made. length (placed_items shipped.now.items made.items)
        ≤ length (placed_items shipped.now.items conf.now.items)) }
    ensures small { AllByRecursion HasSmall conf.now.items → IfOk result (λ made. AllByRecursion HasSmall made.items) }
{
    let items = expanded(alloc, shipped.items.as_slice(), conf.items.as_slice())?;
    let mut standing = Standing::of(alloc, items)?;
    for directive in directives {
        if let Some(kind) = kind_of(&directive.act, &standing) {
            return Err(DirectiveError::Fault(DirectiveFault {
                line: directive.line,
                col: 0,
                kind,
            }));
        }
        act_on(alloc, &mut standing, &directive.act)?;
    }
    Ok(Conf {
        items: Seq::from_vec(standing.into_items(alloc)?),
    })
}
