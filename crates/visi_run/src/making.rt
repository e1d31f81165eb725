//! Makes a gauge.
ghost use Rattle.std.specs.Prelude.{◌≡◌, ◌≤◌, [], ◌∷◌, length, IfOk};
ghost use Rattle.std.specs.List.{AllByRecursion};
ghost use Rattle.visi_run.specs.Readings.{first_reading};
ghost use Rattle.visi_run.specs.Gauges.{AreOf};
ghost use Rattle.visi_run.specs.Gauges.{Reader as ReaderOf};

use crate::dial::{Gauge, GaugeReader, GaugeWriter, Reading};
use crate::sight::{Admits, Cell};
use pn_types::NoMemory;
use std::alloc::Global;

/// Makes a gauge with its writer and `readers` readers, from 1 to 8.
///
/// # Errors
///
/// `NoMemory` where memory runs out.
pub fn gauge(
    alloc: Global,
    readers: u32,
) -> Result<(Gauge, GaugeWriter, Vec<GaugeReader>), NoMemory>
    requires { (1 ≤ readers) × (readers ≤ 8) }
    ensures writer { IfOk result (λ r. (r.1.cell ≡ r.0.cell) × (r.1.list ≡ first_reading ∷ [])) }
    ensures readers { IfOk result (λ r. (r.0.readers ≡ readers) × (length r.2.items ≡ readers)) }
    ensures fresh { IfOk result (λ r. AreOf r.0.cell r.2.items × AllByRecursion (λ (x : ReaderOf). x.list ≡ []) r.2.items) }
{
    let (cell, mut pass) = Cell::ruled(
        alloc,
        Reading {
            published: 0,
            ticks: 0,
            ended: false,
        },
    )?;
    let mut all = Vec::with_capacity(alloc, readers as usize)?;
    for _reader in 0..readers {
        let pass = cell.split_pass::<Admits>(&mut pass);
        all.push_reserved(GaugeReader { pass });
    }
    Ok((Gauge { cell, readers }, GaugeWriter { pass }, all))
}
