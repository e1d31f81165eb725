//! What is looked up while plans are made.

ghost use Rattle.std.specs.Prelude.{◌≡◌, ◌<◌, ◌^◌, [], IfOk, OnOk, length, map, flat_map, slice_index_or};
ghost use Rattle.first_places.specs.Groups.{places_of};
ghost use Rattle.mdl_plan.specs.Indexes.{gathered, with_point_place, AreByProcedure};
ghost use Rattle.mdl_plan.specs.Numbers.{AreEmpty};
ghost use Rattle.mdl_plan.specs.Scopes.{names_of};

use first_places::PlacesByName;
use pn_types::{NoMemory, Point, Proc, Seq, Text};
use std::alloc::Global;
use std::marker::Model;

/// By procedure the places of its points in the list of points, ascending.
#[derive(Drop)]
pub(crate) struct PointPlaces {
    lists: Vec<Vec<u32>>,
}

impl Model for PointPlaces {
    ghost use Rattle.std.specs.Prelude.{List, ℕ, map};

    ghost Value = { List (List ℕ) };

    ghost view = { λ t. map (λ l. l.items) t.lists.items };
}

/// A program's procedures and points, with what is looked up of them while plans are made: which procedures have a name, and
/// which points a procedure has. Contracts see the procedures and points.
pub struct PlanIndex {
    procs: Seq<Proc>,
    points: Seq<Point>,
    /// The name of each procedure.
    names: PlacesByName,
    places: PointPlaces,
}

impl Model for PlanIndex {
    ghost use Rattle.mdl_plan.specs.Indexes.{IsIndexOf};
    ghost use Rattle.mdl_plan.specs.Plans.{IndexedProgram};

    ghost Value = { IndexedProgram };

    ghost view = { λ i. record { procs = i.procs; points = i.points } };

    ghost invariant = { λ i. IsIndexOf i.procs i.points i.names i.places };
}

// A function of its own, so that what drops it need not prove the drops of all its parts.
impl Drop for PlanIndex {
    fn drop(self) {
        let PlanIndex {
            procs: _,
            points: _,
            names: _,
            places: _,
        } = self;
    }
}

/// The names of procedures.
fn names_of(alloc: Global, procs: &[Proc]) -> Result<PlacesByName, NoMemory>
    requires { length procs.now < 2 ^ 32 }
    ensures { IfOk result (λ names. names ≡ names_of procs.now) }
{
    let mut names = PlacesByName::new(alloc);
    for proc in procs {
        names.push(alloc, proc.name.bytes())?;
    }
    Ok(names)
}

/// An empty list for each of `procs` procedures.
fn empty_lists(alloc: Global, procs: usize) -> Result<Vec<Vec<u32>>, NoMemory>
    ensures { IfOk result (λ lists. AreEmpty procs (map (λ l. l.items) lists.items)) }
{
    let mut lists = Vec::new(alloc);
    for _proc in 0..procs {
        lists.push(Vec::new(alloc))?;
    }
    Ok(lists)
}

/// Puts the place of a point last among those of its procedure, if there is such a procedure.
fn add_place(places: &mut Vec<Vec<u32>>, proc_no: u32, place: u32) -> Result<(), NoMemory>
    ensures { OnOk result (map (λ l. l.items) places.new.items ≡ with_point_place proc_no place (map (λ l. l.items) places.old.items)) }
{
    if let Some(list) = places.get_mut(proc_no as usize) {
        list.push(place)?;
    }
    Ok(())
}

/// By procedure the places of its points, where there are `procs` procedures.
fn places_of(alloc: Global, procs: usize, points: &[Point]) -> Result<Vec<Vec<u32>>, NoMemory>
    requires { length points.now < 2 ^ 32 }
    ensures many { IfOk result (λ places. length places.items ≡ procs) }
    ensures places { IfOk result (λ places. AreByProcedure points.now (map (λ l. l.items) places.items)) }
{
    let mut places = empty_lists(alloc, procs)?;
    for (place, point) in points.iter().enumerate() {
        add_place(&mut places, point.proc_no, place as u32)?;
    }
    Ok(places)
}

/// The points at these places. A place at which there is none is left out.
pub(crate) fn points_at<'p>(
    alloc: Global,
    points: &'p [Point],
    places: &[u32],
) -> Result<Vec<&'p Point>, NoMemory>
    ensures { IfOk result (λ found. map (λ p. p.now) found.items ≡ gathered points.now places.now) }
{
    let mut found = Vec::new(alloc);
    for place in places {
        if let Some(point) = points.get(*place as usize) {
            found.push(point)?;
        }
    }
    Ok(found)
}

impl PointPlaces {
    /// The places of the points of `procs` procedures.
    fn new(alloc: Global, procs: usize, points: &[Point]) -> Result<PointPlaces, NoMemory>
        requires { length points.now < 2 ^ 32 }
        ensures many { IfOk result (λ places. length places ≡ procs) }
        ensures places { IfOk result (AreByProcedure points.now) }
    {
        let lists = places_of(alloc, procs, points)?;
        Ok(PointPlaces { lists })
    }

    /// The places of the points of a procedure. Empty where there is no such procedure.
    pub(crate) fn of(&self, proc_no: u32) -> &[u32]
        ensures { result.now ≡ slice_index_or self.now proc_no [] }
    {
        match self.lists.get(proc_no as usize) {
            Some(places) => places.as_slice(),
            None => &[],
        }
    }
}

impl PlanIndex {
    /// Returns the index of these procedures and points. The work is linear in both.
    ///
    /// # Errors
    ///
    /// `NoMemory` where memory runs out.
    pub fn new(alloc: Global, procs: Seq<Proc>, points: Seq<Point>) -> Result<PlanIndex, NoMemory>
        requires procs { length procs < 2 ^ 32 }
        requires points { length points < 2 ^ 32 }
        ensures { IfOk result (λ index. index ≡ record { procs = procs; points = points }) }
    {
        let names = names_of(alloc, procs.as_slice())?;
        let places = PointPlaces::new(alloc, procs.as_slice().len(), points.as_slice())?;
        Ok(PlanIndex {
            procs,
            points,
            names,
            places,
        })
    }

    /// The procedures, which a number of 32 bits counts.
    pub(crate) fn procs(&self) -> &[Proc]
        ensures procs { result.now ≡ self.now.procs }
        ensures few { length self.now.procs < 2 ^ 32 }
    {
        self.procs.as_slice()
    }

    /// The points, which a number of 32 bits counts.
    pub(crate) fn points(&self) -> &[Point]
        ensures points { result.now ≡ self.now.points }
        ensures few { length self.now.points < 2 ^ 32 }
    {
        self.points.as_slice()
    }

    /// The places of each procedure's points.
    pub(crate) fn places(&self) -> &PointPlaces
        ensures many { length result.now ≡ length self.now.procs }
        ensures places { AreByProcedure self.now.points result.now }
    {
        &self.places
    }

    /// The numbers of the procedures of these names.
    pub(crate) fn with_any(&self, alloc: Global, names: &[Text]) -> Result<Vec<u32>, NoMemory>
        ensures { IfOk result (λ numbers. numbers.items ≡ flat_map (λ name. places_of name (names_of self.now.procs)) names.now) }
    {
        let mut all = Vec::new(alloc);
        for name in names {
            all.extend_from_slice(self.names.places(name.bytes()))?;
        }
        Ok(all)
    }
}
