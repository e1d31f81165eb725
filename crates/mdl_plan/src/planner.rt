//! The sites of a plan, and the procedures at whose entries statements stand.

ghost use Rattle.std.specs.Prelude.{◌≡◌, ◌≤◌, ◌<◌, ◌^◌, ◌++◌, ◌∷◌, [], IfOk, IfErr, OnOk, None, length, map, flat_map, slice_get};
ghost use Rattle.std.specs.List.{filter, find};
ghost use Rattle.resource_tree.specs.Foci.{part};
ghost use Rattle.mdl_plan.specs.Busy.{busy};
ghost use Rattle.mdl_plan.specs.Scopes.{scope};
ghost use Rattle.mdl_plan.specs.Pieces as spec;
ghost use Rattle.mdl_plan.specs.Plans.{is_crowded, open_if, terms_of};
ghost use Rattle.mdl_plan.specs.ChosenPieces.{has_numbers, numbers_at, open_with, opens_in, sites_in, stmts_in, IsOver, AreChosen, PlanRefuses};

use crate::active::Active;
use crate::chosen_pieces::{ChosenPieces, numbers_if};
use crate::fault::{PlanError, PlanFault};
use crate::index::{PlanIndex, points_at};
use crate::pieces::{Piece, pieces};
use crate::scope::Scope;
use crate::statements::Terms;
use mdl_ast::{Constraint, Metric};
use pn_types::{Focus, NoMemory, Open, Point, Proc, Seq, Site, Stmt};
use resource_tree::Tree;
use std::alloc::Global;

/// The most statements that a site can have.
const MOST_STMTS: usize = 32;

/// What tells the statements of a point: the insertions that have statements, which of them are chosen where, and what
/// their statements have in common.
pub(crate) struct Planner<'a> {
    pieces: Vec<Piece<'a>>,
    chosen: ChosenPieces,
    terms: Terms,
}

// A function of its own, so that what drops it need not prove the drops of all its parts.
impl Drop for Planner<'_> {
    fn drop(self) {
        let Planner {
            pieces: _,
            chosen: _,
            terms: _,
        } = self;
    }
}

/// Adds the site with these statements at this address.
fn add(sites: &mut Vec<Site>, at: u64, stmts: Vec<Stmt>) -> Result<(), NoMemory>
    ensures { OnOk result (sites.new.items ≡ sites.old.items ++ record { at = at; stmts = stmts.items } ∷ []) }
{
    sites.push(Site {
        at,
        stmts: Seq::from_vec(stmts),
    })?;
    Ok(())
}

/// Adds the range of a procedure with its entry statements.
fn add_range(opens: &mut Vec<Open>, range: &Proc, stmts: Vec<Stmt>) -> Result<(), NoMemory>
    ensures { OnOk result (opens.new.items
        ≡ opens.old.items ++ record { start = range.now.start; len = range.now.len; stmts = stmts.items } ∷ []) }
{
    opens.push(Open {
        start: range.start,
        len: range.len,
        stmts: Seq::from_vec(stmts),
    })?;
    Ok(())
}

/// Adds the range of a procedure with its entry statements, if there are any.
fn add_busy(
    opens: &mut Vec<Open>,
    procs: &[Proc],
    proc_no: u32,
    stmts: Vec<Stmt>,
) -> Result<(), NoMemory>
    ensures { OnOk result (opens.new.items ≡ opens.old.items ++ open_if stmts.items (slice_get procs.now proc_no)) }
{
    if stmts.is_empty() {
        return Ok(());
    }
    match procs.get(proc_no as usize) {
        None => Ok(()),
        Some(range) => add_range(opens, range, stmts),
    }
}

impl<'a> Planner<'a> {
    /// The planner of a metric with its active constraints at a focus. The counters are the active ones.
    pub(crate) fn of(
        alloc: Global,
        metric: &'a Metric,
        active: &Active<'a>,
        counters: &[&'a Constraint],
        focus: &Focus,
        tree: &Tree,
        index: &PlanIndex,
    ) -> Result<Planner<'a>, NoMemory>
        requires few { length counters.now ≤ 2 }
        requires active { map (λ c. c.now) counters.now ≡ spec.counters active.now }
        ensures pieces { IfOk result (λ s. s.pieces.items ≡ busy (spec.pieces metric.now active.now)) }
        ensures chosen { IfOk result (λ s. AreChosen (scope (part tree.now focus.now).procs index.now.procs) s.pieces.items s.chosen) }
        ensures terms { IfOk result (λ s. s.terms ≡ terms_of (part tree.now focus.now) active.now) }
    {
        let pieces = pieces(alloc, metric, active, counters)?;
        let scope = Scope::new(tree, focus, index);
        let chosen = ChosenPieces::build(alloc, &scope, &pieces)?;
        let terms = Terms::new(alloc, counters, tree.object_at(focus))?;
        Ok(Planner {
            pieces,
            chosen,
            terms,
        })
    }

    /// The points of the procedures for which a piece is chosen: all points at which one is chosen are among them.
    pub(crate) fn reached<'p>(
        &self,
        alloc: Global,
        index: &'p PlanIndex,
    ) -> Result<Vec<&'p Point>, NoMemory>
        requires { IsOver (length index.now.procs) self.now.chosen }
        ensures few { OnOk result (length index.now.points < 2 ^ 32) }
        ensures points { IfOk result (λ found. filter (has_numbers self.now.chosen) (map (λ p. p.now) found.items)
            ≡ filter (has_numbers self.now.chosen) index.now.points) }
    {
        let places = self.chosen.places(alloc, index.places())?;
        points_at(alloc, index.points(), &places)
    }

    /// At how many points a statement stands.
    pub(crate) fn count(&self, points: &[&Point]) -> u32
        requires { length (filter (has_numbers self.now.chosen) (map (λ p. p.now) points.now)) < 2 ^ 32 }
        ensures { result ≡ length (filter (has_numbers self.now.chosen) (map (λ p. p.now) points.now)) }
    {
        let mut count = 0;
        for point in points {
            if self.chosen.has_numbers(point) {
                count += 1;
            }
        }
        count
    }

    /// Adds the statements of the piece of this number.
    fn add_piece(&self, alloc: Global, stmts: &mut Vec<Stmt>, number: usize) -> Result<(), NoMemory>
        ensures { OnOk result (stmts.new.items ≡ stmts.old.items ++ stmts_in self.now number) }
    {
        match self.pieces.get(number) {
            Some(piece) => self.terms.add_stmts(alloc, stmts, piece),
            None => Ok(()),
        }
    }

    /// Adds the statements of the pieces of these numbers.
    fn add_pieces(
        &self,
        alloc: Global,
        stmts: &mut Vec<Stmt>,
        numbers: &[usize],
    ) -> Result<(), NoMemory>
        ensures { OnOk result (stmts.new.items ≡ stmts.old.items ++ flat_map (stmts_in self.now) numbers.now) }
    {
        for number in numbers {
            self.add_piece(alloc, stmts, *number)?;
        }
        Ok(())
    }

    /// The statements at a point, kind by kind.
    fn stmts_at(&self, alloc: Global, point: &Point) -> Result<Vec<Stmt>, NoMemory>
        ensures { IfOk result (λ stmts. stmts.items ≡ flat_map (stmts_in self.now) (numbers_at self.now.chosen point.now)) }
    {
        let proc_no = point.proc_no;
        let entry = numbers_if(point.entry, &self.chosen.entry, proc_no);
        let after = numbers_if(point.after, &self.chosen.after, proc_no);
        let ret = numbers_if(point.ret, &self.chosen.ret, proc_no);
        let call = numbers_if(point.call, &self.chosen.call, proc_no);
        let mut stmts = Vec::new(alloc);
        self.add_pieces(alloc, &mut stmts, entry)?;
        self.add_pieces(alloc, &mut stmts, after)?;
        self.add_pieces(alloc, &mut stmts, ret)?;
        self.add_pieces(alloc, &mut stmts, call)?;
        Ok(stmts)
    }

    /// Adds the site of a point, if a statement stands there. A point with too many is refused.
    fn add_site(&self, alloc: Global, sites: &mut Vec<Site>, point: &Point) -> Result<(), PlanError>
        ensures added { OnOk result (sites.new.items ≡ sites.old.items ++ sites_in self.now (point.now ∷ [])) }
        ensures few { OnOk result (find is_crowded (sites_in self.now (point.now ∷ [])) ≡ None) }
        ensures refused { IfErr result (λ e. PlanRefuses e (sites_in self.now (point.now ∷ []))) }
    {
        if !self.chosen.has_numbers(point) {
            return Ok(());
        }
        let stmts = self.stmts_at(alloc, point)?;
        if stmts.len() > MOST_STMTS {
            return Err(PlanError::Fault(PlanFault::TooManyStmts(point.at)));
        }
        add(sites, point.at, stmts)?;
        Ok(())
    }

    /// The sites of the points. The first point with too many statements is refused.
    pub(crate) fn sites(&self, alloc: Global, points: &[&Point]) -> Result<Vec<Site>, PlanError>
        ensures all { IfOk result (λ sites. sites.items ≡ sites_in self.now (map (λ p. p.now) points.now)) }
        ensures few { OnOk result (find is_crowded (sites_in self.now (map (λ p. p.now) points.now)) ≡ None) }
        ensures refused { IfErr result (λ e. PlanRefuses e (sites_in self.now (map (λ p. p.now) points.now))) }
    {
        let mut sites = Vec::new(alloc);
        for point in points {
            self.add_site(alloc, &mut sites, point)?;
        }
        Ok(sites)
    }

    /// Adds the procedure of a point, if the point is its entry and an entry statement stands there.
    fn add_open(
        &self,
        alloc: Global,
        opens: &mut Vec<Open>,
        procs: &[Proc],
        point: &Point,
    ) -> Result<(), NoMemory>
        ensures { OnOk result (opens.new.items
            ≡ opens.old.items ++ open_with self.now.terms self.now.pieces.items self.now.chosen procs.now point.now) }
    {
        let numbers = numbers_if(point.entry, &self.chosen.entry, point.proc_no);
        let mut stmts = Vec::new(alloc);
        self.add_pieces(alloc, &mut stmts, numbers)?;
        add_busy(opens, procs, point.proc_no, stmts)
    }

    /// The procedures of the points at whose entries entry statements stand.
    pub(crate) fn opens(
        &self,
        alloc: Global,
        procs: &[Proc],
        points: &[&Point],
    ) -> Result<Vec<Open>, NoMemory>
        ensures { IfOk result (λ opens. opens.items ≡ opens_in self.now procs.now (map (λ p. p.now) points.now)) }
    {
        let mut opens = Vec::new(alloc);
        for point in points {
            self.add_open(alloc, &mut opens, procs, point)?;
        }
        Ok(opens)
    }
}
