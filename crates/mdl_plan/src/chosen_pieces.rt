//! The pieces that are chosen at the points of each kind of each procedure.

ghost use Rattle.std.specs.Prelude.{◌≡◌, [], IfOk, OnOk, if◌then◌else◌, slice_index_or};
ghost use Rattle.mdl_plan.specs.Choosing.{is_chosen, is_kind};
ghost use Rattle.mdl_plan.specs.Numbers.{Added, AreNumbers};
ghost use Rattle.mdl_plan.specs.ChosenPieces.{has_numbers, numbers_if, HavePlaces, AreChosen};

use crate::index::PointPlaces;
use crate::lists::Lists;
use crate::pieces::Piece;
use crate::scope::Scope;
use mdl_ast::EventKind;
use pn_types::{NoMemory, Point};
use std::alloc::Global;

/// The numbers of the pieces that are chosen for each procedure, by the kind of the points.
pub(crate) struct ChosenPieces {
    /// At entries.
    pub(crate) entry: Lists,
    /// After calls.
    pub(crate) after: Lists,
    /// At returns.
    pub(crate) ret: Lists,
    /// At calls.
    pub(crate) call: Lists,
}

// A function of its own, so that what drops it need not prove the drops of all its parts.
impl Drop for ChosenPieces {
    fn drop(self) {
        let ChosenPieces {
            entry: _,
            after: _,
            ret: _,
            call: _,
        } = self;
    }
}

/// Whether it is the same kind.
fn is_kind(kind: EventKind, other: EventKind) -> bool
    ensures { result ≡ is_kind kind other }
{
    match (kind, other) {
        (EventKind::Entry, EventKind::Entry) => true,
        (EventKind::After, EventKind::After) => true,
        (EventKind::Return, EventKind::Return) => true,
        (EventKind::Call, EventKind::Call) => true,
        _ => false,
    }
}

/// Adds the number of a piece to the lists of the procedures that it is for, if it is one for points of this kind.
fn add(
    alloc: Global,
    lists: &mut Lists,
    scope: &Scope<'_>,
    kind: EventKind,
    number: usize,
    piece: &Piece<'_>,
) -> Result<(), NoMemory>
    ensures { OnOk result (Added scope.now.procs (λ q p. is_chosen scope.now.selected kind q p piece.now) number lists.old lists.new) }
{
    if !is_kind(kind, piece.insertion().kind) {
        return Ok(());
    }
    let selected = scope.selected(alloc, piece.set())?;
    lists.mark_all(alloc, number, &selected)?;
    Ok(())
}

/// The numbers of the pieces that are chosen at points of one kind.
fn chosen(
    alloc: Global,
    scope: &Scope<'_>,
    kind: EventKind,
    pieces: &[Piece<'_>],
) -> Result<Lists, NoMemory>
    ensures { IfOk result (AreNumbers scope.now.procs (is_chosen scope.now.selected kind) pieces.now) }
{
    let mut lists = Lists::empty(alloc, scope.len())?;
    for (number, piece) in pieces.iter().enumerate() {
        add(alloc, &mut lists, scope, kind, number, piece)?;
    }
    Ok(lists)
}

/// The numbers of a procedure, if they are wanted.
pub(crate) fn numbers_if(wanted: bool, lists: &Lists, proc_no: u32) -> &[usize]
    ensures { result.now ≡ numbers_if wanted lists.now proc_no }
{
    if wanted { lists.at(proc_no) } else { &[] }
}

impl ChosenPieces {
    /// The numbers of the pieces that are chosen, for all kinds.
    pub(crate) fn build(
        alloc: Global,
        scope: &Scope<'_>,
        pieces: &[Piece<'_>],
    ) -> Result<ChosenPieces, NoMemory>
        ensures { IfOk result (AreChosen scope.now pieces.now) }
    {
        Ok(ChosenPieces {
            entry: chosen(alloc, scope, EventKind::Entry, pieces)?,
            after: chosen(alloc, scope, EventKind::After, pieces)?,
            ret: chosen(alloc, scope, EventKind::Return, pieces)?,
            call: chosen(alloc, scope, EventKind::Call, pieces)?,
        })
    }

    /// Whether a piece is chosen at the point.
    pub(crate) fn has_numbers(&self, point: &Point) -> bool
        ensures { result ≡ has_numbers self.now point.now }
    {
        let proc_no = point.proc_no;
        !numbers_if(point.entry, &self.entry, proc_no).is_empty()
            || !numbers_if(point.after, &self.after, proc_no).is_empty()
            || !numbers_if(point.ret, &self.ret, proc_no).is_empty()
            || !numbers_if(point.call, &self.call, proc_no).is_empty()
    }

    /// The places of the points of the procedures for which a piece is chosen, ascending.
    pub(crate) fn places(&self, alloc: Global, by_proc: &PointPlaces) -> Result<Vec<u32>, NoMemory>
        ensures { IfOk result (λ places. HavePlaces self.now by_proc.now places.items) }
    {
        let mut places = Vec::new(alloc);
        self.entry.add_places(&mut places, by_proc)?;
        self.after.add_places(&mut places, by_proc)?;
        self.ret.add_places(&mut places, by_proc)?;
        self.call.add_places(&mut places, by_proc)?;
        places.sort_unstable();
        places.dedup();
        Ok(places)
    }
}
