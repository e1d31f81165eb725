//! What is found of a program and a configuration.

ghost use Rattle.std.specs.Prelude.{◌≡◌, ◌<◌, ◌≤◌, ◌^◌, IfOk, Ok, Err, length, map};
ghost use Rattle.std.specs.List.{AllByRecursion};
ghost use Rattle.std.specs.List.Sorted.{IsStrictlyIncreasing};
ghost use Rattle.code_points.specs.Procedures.{procedures_of, skipped_of, AreModulesGood, AreProcsOf};
ghost use Rattle.mdl_ast.specs.Small.{HasSmall};
ghost use Rattle.mdl_check.specs.Sound.{IsSoundCheck};
ghost use Rattle.mdl_check.specs.Placed.{placed_items};
ghost use Rattle.mdl_shipped.specs.Shipped.{shipped_conf};
ghost use Rattle.mdl_plan.specs.Fitting.{HasLowObjects};
ghost use Rattle.commands.specs.Found.{resources_of, IsFound, IsCheck};
ghost use Rattle.commands.specs.Given.{IsUnscratched, CanRun};
ghost use Rattle.pn_types.specs.Images.{IsImage};
ghost use Rattle.refusals.specs.Refusals.{Comes};
ghost use Rattle.resource_tree.specs.Names.{IsNamed};

use crate::configuration::bad_configuration;
use code_points::{objects, points, procedures};
use mdl_ast::Conf;
use mdl_check::{CheckError, Checked, check, prefixes};
use mdl_shipped::shipped;
use pn_types::{Image, MAX_HARTS, NoMemory, Point, Proc, Seq};
use refusals::{Refusal, check_kind};
use resource_tree::Tree;
use std::alloc::Global;

/// Returns the resources of a program on `harts` harts, where the configuration tells the beginnings of the objects' names.
fn resources(
    alloc: Global,
    image: &Image,
    procs: &[Proc],
    harts: u32,
    conf: &Conf,
    shipped: &Conf,
) -> Result<Tree, NoMemory>
    requires image { IsImage image.now }
    requires procs { procs.now ≡ procedures_of image.now }
    requires are_procs { AreProcsOf image.now procs.now }
    requires modules { AreModulesGood image.now }
    requires harts { harts ≤ MAX_HARTS }
    requires shipped { shipped.now ≡ shipped_conf }
    ensures tree { IfOk result (λ tree. tree ≡ resources_of image.now harts conf.now) }
    ensures named { IfOk result IsNamed }
    ensures low { IfOk result HasLowObjects }
{
    let prefixes = prefixes(alloc, conf, shipped)?;
    let objects = objects(alloc, image)?;
    Tree::build(alloc, procs, &objects, harts, &prefixes)
}

/// Returns what the configuration holds of the resources.
fn checked(alloc: Global, conf: &Conf, shipped: &Conf, tree: &Tree) -> Result<Checked, Refusal>
    requires shipped { shipped.now ≡ shipped_conf }
    requires few { length (placed_items shipped.now.items conf.now.items) < 2 ^ 32 }
    requires small_shipped { AllByRecursion HasSmall shipped.now.items }
    requires small { AllByRecursion HasSmall conf.now.items }
    ensures checked { Comes result (IsCheck tree.now conf.now) }
    ensures few { IfOk result (λ checked. length checked.metrics < 2 ^ 32) }
    ensures sound { IfOk result IsSoundCheck }
{
    match check(alloc, conf, shipped, tree) {
        Ok(checked) => Ok(checked),
        Err(CheckError::NoMemory) => Err(Refusal::NoMemory),
        Err(CheckError::Fault(fault)) => {
            Err(bad_configuration(fault.line, 0, check_kind(fault.kind)))
        }
    }
}

/// What is found of a program and a configuration.
#[derive(Drop)]
pub struct Found {
    /// The program's procedures.
    pub procs: Seq<Proc>,
    /// The number of its function symbols that are no procedures.
    pub skipped: u32,
    /// Its points.
    pub points: Seq<Point>,
    /// Its resources.
    pub tree: Tree,
    /// What the configuration holds.
    pub checked: Checked,
}

/// Finds a program's procedures, points and resources on `harts` harts, and checks a configuration against them.
///
/// # Errors
///
/// `NoMemory` where memory runs out, or the fault of the configuration's first faulty item.
pub fn find(alloc: Global, image: &Image, harts: u32, conf: &Conf) -> Result<Found, Refusal>
    requires image { IsImage image.now }
    requires modules { AreModulesGood image.now }
    requires unscratched { IsUnscratched image.now }
    requires harts { harts ≤ MAX_HARTS }
    requires few { length conf.now.items ≤ 4194304 }
    requires small { AllByRecursion HasSmall conf.now.items }
    ensures found { Comes result (IsFound image.now harts conf.now) }
    ensures procs { IfOk result (λ found. AreProcsOf image.now found.procs) }
    ensures skipped { IfOk result (λ found. found.skipped ≡ skipped_of image.now) }
    // With this, each focus of the tree is read again from its text.
    ensures named { IfOk result (λ found. IsNamed found.tree) }
    ensures metrics { IfOk result (λ found. length found.checked.metrics < 2 ^ 32) }
    ensures points { IfOk result (λ found. length found.points < 2 ^ 32) }
    // With this, each plan is small, and the tool's code measures it.
    ensures sound { IfOk result (λ found. IsSoundCheck found.checked) }
    ensures low { IfOk result (λ found. HasLowObjects found.tree) }
    ensures ascending { IfOk result (λ found. IsStrictlyIncreasing (map (λ p. p.at) found.points)) }
    // With this, a session takes it.
    ensures runs { IfOk result (CanRun image.now harts) }
{
    let (procs, skipped) = procedures(alloc, image)?;
    let points = points(alloc, image, &procs)?;
    let shipped = shipped(alloc)?;
    let tree = resources(alloc, image, &procs, harts, conf, &shipped)?;
    let checked = checked(alloc, conf, &shipped, &tree)?;
    Ok(Found {
        procs: Seq::from_vec(procs),
        skipped,
        points: Seq::from_vec(points),
        tree,
        checked,
    })
}
