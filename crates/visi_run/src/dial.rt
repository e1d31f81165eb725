//! Tells readers how far a run is, with no lock.
ghost use Rattle.std.specs.Prelude.{true, ◌≡◌, ◌++◌, [], ◌∷◌, length};
ghost use Rattle.crossbeam_utils.specs.Seq.{cell_view};
ghost use Rattle.visi_run.specs.Readings.{MayFollow, Rises, Begins, last_of};
ghost use Rattle.visi_run.specs.Sights.{writing, sight};
ghost use Rattle.visi_run.specs.Gauges.{AreOf, AllStand, lists_of};

use crate::sight::{Cell, Closes, Leaves, Meets, Pass, Reads, Sets};
use crossbeam_utils::atomic::Words;
use std::marker::Model;
use std::sync::Wait;

/// How far the run is.
#[derive(Clone, Copy, PartialEq, Eq, Debug)]
pub struct Reading {
    /// How many samples were published.
    pub published: u64,
    /// How far the clock is.
    pub ticks: u64,
    /// Whether the run has ended. Then no other reading follows.
    pub ended: bool,
}

impl Words<3> for Reading {
    ghost use Rattle.visi_run.specs.Measures.{words_of};

    ghost words = { words_of };

    fn to_words(self) -> [u64; 3] {
        [self.published, self.ticks, self.ended as u64]
    }

    fn from_words(bits: &[u64; 3]) -> Reading {
        Reading {
            published: bits[0],
            ticks: bits[1],
            ended: bits[2] == 1,
        }
    }
}

/// A cell that holds a reading. Contracts see which cell it is, and how many readers it has.
#[derive(Drop)]
pub struct Gauge {
    pub(crate) cell: Cell,
    pub(crate) readers: u32,
}

impl Model for Gauge {
    ghost use Rattle.visi_run.specs.Gauges.{Dial};

    ghost Value = { Dial };

    ghost view = { λ g. record { cell = g.cell.table.shared.table_id; readers = g.readers } };
}

/// The right to set the gauge. Contracts see the first reading and then all that were set.
#[derive(Drop)]
pub struct GaugeWriter {
    pub(crate) pass: Pass,
}

impl Model for GaugeWriter {
    ghost use Rattle.std.specs.Prelude.{◌≡◌};
    ghost use Rattle.crossbeam_utils.specs.Seq.{cell_view};
    ghost use Rattle.visi_run.specs.Sights.{writing};
    ghost use Rattle.visi_run.specs.Gauges.{Writer};

    ghost Value = { Writer };

    ghost view = { λ w. record { cell = w.pass.table_id; list = (cell_view w.pass).wrote } };

    ghost invariant = { λ w. cell_view w.pass ≡ writing (cell_view w.pass).wrote };
}

/// A right to read the gauge. Contracts see what this reader has read.
#[derive(Drop)]
pub struct GaugeReader {
    pub(crate) pass: Pass,
}

impl Model for GaugeReader {
    ghost use Rattle.std.specs.Prelude.{◌≡◌};
    ghost use Rattle.crossbeam_utils.specs.Seq.{cell_view};
    ghost use Rattle.visi_run.specs.Sights.{reading};
    ghost use Rattle.visi_run.specs.Gauges.{Reader};
    ghost use Rattle.visi_run.specs.Sights.{list_of};

    ghost Value = { Reader };

    ghost view = { λ r. record { cell = r.pass.table_id; list = list_of (cell_view r.pass) } };

    ghost invariant = { λ r. cell_view r.pass ≡ reading (list_of (cell_view r.pass)) };
}

impl Gauge {
    /// Sets the reading. Neither of its numbers is below that of the last reading, after which the run had not ended.
    pub fn set<R: Wait>(&self, rt: &R, w: &mut GaugeWriter, r: Reading)
        requires cell { w.old.cell ≡ self.now.cell }
        requires follows { MayFollow (last_of w.old.list) r }
        ensures { w.new ≡ record w.old { list = w.old.list ++ r ∷ [] } }
    {
        self.cell.swap_as::<Sets, R>(rt, &mut w.pass, r);
    }

    /// Reads the gauge. Neither number is below that of what this reader read before.
    pub fn read<R: Wait>(&self, rt: &R, g: &mut GaugeReader) -> Reading
        requires { g.old.cell ≡ self.now.cell }
        ensures list { g.new ≡ record g.old { list = g.old.list ++ result ∷ [] } }
        ensures rises { Rises g.new.list }
    {
        self.cell.load_as::<Reads, R>(rt, &mut g.pass)
    }

    /// Ends the gauge, with its writer and all its readers, and returns the last reading of the writer's list. What a reader has
    /// read stands in that list, and neither number falls in any list.
    pub fn close<R: Wait>(self, rt: &R, w: GaugeWriter, readers: Vec<GaugeReader>) -> Reading
        requires writer { w.cell ≡ self.cell }
        requires readers { (length readers.items ≡ self.readers) × AreOf self.cell readers.items }
        ensures last { result ≡ last_of w.list }
        ensures begins { Begins w.list }
        ensures rises { Rises w.list }
        ensures stand { AllStand w.list readers.items }
    {
        let GaugeWriter { pass } = w;
        let mut pass = take_in(&self.cell, pass, readers);
        self.cell.load_as::<Closes, R>(rt, &mut pass)
    }
}

/// Joins the readers' passes into the writer's.
fn take_in(cell: &Cell, mut writer: Pass, readers: Vec<GaugeReader>) -> Pass
    requires writer { (writer.table_id ≡ cell.now.table.shared.table_id) × (cell_view writer ≡ writing (cell_view writer).wrote) }
    requires readers { AreOf cell.now.table.shared.table_id readers.items }
    ensures cell { result.table_id ≡ cell.now.table.shared.table_id }
    ensures lists { cell_view result ≡ sight true (cell_view writer).wrote (lists_of readers.items) }
{
    for reader in readers {
        let GaugeReader { mut pass } = reader;
        let whole = cell.split_pass::<Leaves>(&mut pass);
        cell.join_pass::<Meets>(&mut writer, whole);
    }
    writer
}
