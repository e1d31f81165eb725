//! The numbers of the pieces that are chosen for each procedure.

ghost use Rattle.std.specs.Prelude.{◌≡◌, ◌<◌, ◌∷◌, ◌++◌, [], IfOk, OnOk, OnErr, length, map, flat_map, set, slice_index_or};
ghost use Rattle.mdl_plan.specs.Numbers.{ends_with, once, AreEmpty, Marked};
ghost use Rattle.mdl_plan.specs.Sparse.{row_at, AddsPlaces};

use crate::index::PointPlaces;
use pn_types::NoMemory;
use std::alloc::Global;
use std::marker::Model;

/// The numbers of the pieces that are chosen for a procedure, ascending.
#[derive(Drop)]
struct Row {
    proc_no: u32,
    numbers: Vec<usize>,
}

/// A list of the numbers of pieces for each procedure, ascending. A list has memory of its own only where it isn't empty.
#[derive(Drop)]
pub(crate) struct Lists {
    /// By procedure the number of its row, of which the first has number 1. It is 0 where the list is empty.
    row_of: Vec<usize>,
    rows: Vec<Row>,
}

impl Model for Lists {
    ghost use Rattle.std.specs.Prelude.{List, ℕ, map};
    ghost use Rattle.mdl_plan.specs.Sparse.{rows_of, AreOwn};

    ghost Value = { List (List ℕ) };

    ghost view = { λ t. rows_of t.row_of.items (map (λ r. r.numbers.items) t.rows.items) };

    ghost invariant = { λ t. AreOwn t.row_of.items (map (λ r. r.proc_no) t.rows.items) };
}

/// Whether the list ends with this number.
fn ends_with(list: &[usize], number: usize) -> bool
    ensures { result ≡ ends_with number list.now }
{
    match list.last() {
        Some(last) => *last == number,
        None => false,
    }
}

/// Puts a number last, unless it is the last.
fn push_once(list: &mut Vec<usize>, number: usize) -> Result<(), NoMemory>
    ensures { OnOk result (list.new.items ≡ once number list.old.items) }
{
    if !ends_with(list, number) {
        list.push(number)?;
    }
    Ok(())
}

/// Puts a number last in the row at this place, unless it is the last.
fn push_at(rows: &mut [Row], place: usize, number: usize) -> Result<(), NoMemory>
    requires { place < length rows.old }
    ensures owners { map (λ r. r.proc_no) rows.new ≡ map (λ r. r.proc_no) rows.old }
    ensures pushed { OnOk result (map (λ r. r.numbers.items) rows.new
        ≡ set (map (λ r. r.numbers.items) rows.old) place (once number (slice_index_or (map (λ r. r.numbers.items) rows.old) place []))) }
{
    let row = &mut rows[place];
    push_once(&mut row.numbers, number)
}

/// Adds a row of one number for a procedure.
fn add_row(alloc: Global, rows: &mut Vec<Row>, proc_no: u32, number: usize) -> Result<(), NoMemory>
    ensures owner { OnOk result (map (λ r. r.proc_no) rows.new.items ≡ map (λ r. r.proc_no) rows.old.items ++ proc_no ∷ []) }
    ensures added { OnOk result (map (λ r. r.numbers.items) rows.new.items
        ≡ map (λ r. r.numbers.items) rows.old.items ++ (number ∷ []) ∷ []) }
    ensures kept { OnErr result (rows.new.items ≡ rows.old.items) }
{
    let numbers = vec![in alloc; number]?;
    rows.push(Row { proc_no, numbers })?;
    Ok(())
}

/// The numbers of a row, of which the first has number 1. Empty where there is no such row.
fn numbers_of(rows: &[Row], row: usize) -> &[usize]
    ensures { result.now ≡ row_at (map (λ r. r.numbers.items) rows.now) row }
{
    if row == 0 {
        return &[];
    }
    match rows.get(row - 1) {
        Some(row) => row.numbers.as_slice(),
        None => &[],
    }
}

/// Adds the places of the points of the rows' procedures.
fn add_places(places: &mut Vec<u32>, by_proc: &PointPlaces, rows: &[Row]) -> Result<(), NoMemory>
    ensures { OnOk result (places.new.items ≡ places.old.items ++ flat_map (λ row. slice_index_or by_proc.now row.proc_no []) rows.now) }
{
    for row in rows {
        places.extend_from_slice(by_proc.of(row.proc_no))?;
    }
    Ok(())
}

impl Lists {
    /// An empty list for each of `procs` procedures.
    pub(crate) fn empty(alloc: Global, procs: usize) -> Result<Lists, NoMemory>
        ensures { IfOk result (AreEmpty procs) }
    {
        Ok(Lists {
            row_of: vec![in alloc; 0; procs]?,
            rows: Vec::new(alloc),
        })
    }

    /// Puts the number of a piece into the list of a procedure, unless it is there.
    fn mark(&mut self, alloc: Global, number: usize, proc_no: u32) -> Result<(), NoMemory>
        ensures { OnOk result (Marked number (proc_no ∷ []) self.old self.new) }
    {
        let place = proc_no as usize;
        if place >= self.row_of.len() {
            return Ok(());
        }
        let row = self.row_of[place];
        if row > 0 {
            return push_at(&mut self.rows, row - 1, number);
        }
        add_row(alloc, &mut self.rows, proc_no, number)?;
        self.row_of[place] = self.rows.len();
        Ok(())
    }

    /// Puts the number of a piece, the greatest so far, into the list of each of these procedures. Numbers that no
    /// procedure has are left out.
    pub(crate) fn mark_all(
        &mut self,
        alloc: Global,
        number: usize,
        procs: &[u32],
    ) -> Result<(), NoMemory>
        ensures { OnOk result (Marked number procs.now self.old self.new) }
    {
        for proc_no in procs {
            self.mark(alloc, number, *proc_no)?;
        }
        Ok(())
    }

    /// The list of a procedure. Empty where there is no such procedure.
    pub(crate) fn at(&self, proc_no: u32) -> &[usize]
        ensures { result.now ≡ slice_index_or self.now proc_no [] }
    {
        match self.row_of.get(proc_no as usize) {
            Some(row) => numbers_of(&self.rows, *row),
            None => &[],
        }
    }

    /// Adds the places of the points of each procedure whose list isn't empty.
    pub(crate) fn add_places(
        &self,
        places: &mut Vec<u32>,
        by_proc: &PointPlaces,
    ) -> Result<(), NoMemory>
        ensures { OnOk result (AddsPlaces self.now by_proc.now places.old.items places.new.items) }
    {
        add_places(places, by_proc, &self.rows)
    }
}
