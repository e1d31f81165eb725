//! The searches that can begin, and what they go by.

ghost use Rattle.std.specs.Prelude.{◌≡◌, ◌<◌, ◌≤◌, ◌+◌, ◌*◌, IfOk, OnOk, length, vec_len};

use mdl_ast::{Hypothesis, PhaseDecl, SearchDecl};
use pn_types::{NoMemory, Proc, Seq, Text};
use resource_tree::Tree;
use std::alloc::Global;
use std::slice;
use w3_search::Search;

/// A search that can begin.
#[derive(Clone, Copy, Debug, Drop)]
pub(crate) enum Case {
    /// One hypothesis over a small program.
    Small,
    /// Three hypotheses over a small program, in two phases.
    Phases,
    /// One hypothesis over a program of more procedures than there may be nodes.
    Full,
}

/// How much a search goes by, and how it tests.
#[derive(Clone, Copy, Drop)]
struct Size {
    /// How many of the three hypotheses.
    hypotheses: usize,
    /// How many modules.
    modules: u32,
    /// How many procedures in each of them.
    each: u32,
    /// How many harts.
    harts: u32,
    /// How many samples a test takes.
    window: u32,
    /// The tick at which the second phase begins.
    late: u32,
    ghost few_modules: { modules < 1000 },
    ghost few_procedures: { each < 10000 },
    ghost few_harts: { harts ≤ 32 },
    ghost some_samples: { 1 ≤ window },
}

const SMALL: Size = Size {
    hypotheses: 1,
    modules: 1,
    each: 2,
    harts: 1,
    window: 2,
    late: 10_000,
};

const PHASES: Size = Size {
    hypotheses: 3,
    modules: 1,
    each: 2,
    harts: 2,
    window: 2,
    late: 800,
};

const FULL: Size = Size {
    hypotheses: 1,
    modules: 3,
    each: 2000,
    harts: 1,
    window: 1,
    late: 1000,
};

/// What a search goes by.
#[derive(Drop)]
pub(crate) struct Inputs {
    pub(crate) hypotheses: Vec<Hypothesis>,
    pub(crate) tree: Tree,
    ghost few: { vec_len hypotheses ≤ 3 },
}

/// The searches that began, each with its inputs. The last one is at hand.
///
/// They stand in lists since a list's drop is proved once, but that of a search by itself at each return, with all its parts.
#[derive(Drop)]
pub(crate) struct Cases {
    pub(crate) inputs: Vec<Inputs>,
    pub(crate) searches: Vec<Search>,
}

/// A text of these bytes.
fn text(alloc: Global, bytes: &[u8]) -> Result<Text, NoMemory> {
    Ok(Text::from_vec(Vec::from_slice(alloc, bytes)?))
}

/// Puts a hypothesis of this name last, which is refined along one axis. It is true from 200 of 1,000 ticks on.
fn add(
    alloc: Global,
    hypotheses: &mut Vec<Hypothesis>,
    name: &[u8],
    parent: Option<Text>,
    axis: &[u8],
) -> Result<(), NoMemory>
    ensures { OnOk result (vec_len hypotheses.new ≡ vec_len hypotheses.old + 1) }
{
    let mut axes = Vec::new(alloc);
    axes.push(text(alloc, axis)?)?;
    hypotheses.push(Hypothesis {
        line: 1,
        name: text(alloc, name)?,
        parent,
        metric: text(alloc, b"metric")?,
        threshold: 200,
        axes: Seq::from_vec(axes),
    })?;
    Ok(())
}

/// The first `count` of three hypotheses: two without a parent, of which the second is refined along the machine, and one under the
/// first.
fn hypotheses(alloc: Global, count: usize) -> Result<Vec<Hypothesis>, NoMemory>
    ensures { IfOk result (λ all. vec_len all ≤ 3) }
{
    let mut hypotheses = Vec::new(alloc);
    add(alloc, &mut hypotheses, b"First", None, b"Code")?;
    add(alloc, &mut hypotheses, b"Second", None, b"Machine")?;
    add(
        alloc,
        &mut hypotheses,
        b"Third",
        Some(text(alloc, b"First")?),
        b"Code",
    )?;
    hypotheses.truncate(count);
    Ok(hypotheses)
}

/// A name of this number.
fn name(alloc: Global, number: u32) -> Result<Text, NoMemory> {
    text(alloc, &number.to_be_bytes())
}

/// Procedures of `modules` modules, with `each` in each.
fn procs(alloc: Global, modules: u32, each: u32) -> Result<Vec<Proc>, NoMemory>
    requires modules { modules < 1000 }
    requires each { each < 10000 }
    ensures { IfOk result (λ procs. length procs.items ≡ modules * each) }
{
    let mut procs = Vec::new(alloc);
    for number in 0..modules * each {
        procs.push(Proc {
            name: name(alloc, number)?,
            module: name(alloc, number / each)?,
            start: 0x10000 + number as u64 * 4,
            len: 4,
        })?;
    }
    Ok(procs)
}

/// The tree of `modules` modules with `each` procedures each, and of `harts` harts.
fn tree(alloc: Global, modules: u32, each: u32, harts: u32) -> Result<Tree, NoMemory>
    requires modules { modules < 1000 }
    requires each { each < 10000 }
    requires harts { harts ≤ 32 }
{
    let procs = procs(alloc, modules, each)?;
    Tree::build(alloc, &procs, &[], harts, &[])
}

/// The second phase.
fn late(alloc: Global, at: u32) -> Result<PhaseDecl, NoMemory> {
    Ok(PhaseDecl {
        line: 1,
        name: text(alloc, b"late")?,
        at,
    })
}

/// A search by a few hypotheses over a tree, with this window, whose second phase begins at this tick.
fn search(
    alloc: Global,
    hypotheses: &[Hypothesis],
    window: u32,
    at: u32,
    tree: &Tree,
) -> Result<Search, NoMemory>
    requires hypotheses { length hypotheses.now ≤ 3 }
    requires window { 1 ≤ window }
{
    let decl = SearchDecl {
        line: 1,
        window,
        cost: 1000,
        observed: 1_000_000,
    };
    let late = late(alloc, at)?;
    Search::new(alloc, hypotheses, &decl, slice::from_ref(&late), tree)
}

/// The inputs of a search of this size.
fn inputs_of(alloc: Global, size: Size) -> Result<Inputs, NoMemory> {
    Ok(Inputs {
        hypotheses: hypotheses(alloc, size.hypotheses)?,
        tree: tree(alloc, size.modules, size.each, size.harts)?,
    })
}

impl Case {
    /// Its size.
    fn size(self) -> Size {
        match self {
            Case::Small => SMALL,
            Case::Phases => PHASES,
            Case::Full => FULL,
        }
    }
}

/// Begins this search.
pub(crate) fn begin(alloc: Global, cases: &mut Cases, case: Case) -> Result<(), NoMemory> {
    let size = case.size();
    cases.inputs.push(inputs_of(alloc, size)?)?;
    if let Some(inputs) = cases.inputs.last() {
        let searches = &mut cases.searches;
        searches.push(search(
            alloc,
            &inputs.hypotheses,
            size.window,
            size.late,
            &inputs.tree,
        )?)?;
    }
    Ok(())
}
