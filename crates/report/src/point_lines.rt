//! The text of points.

ghost use Rattle.std.specs.Prelude.{◌≡◌, ◌++◌, slice_get, OnOk, IfOk};
ghost use Rattle.report.specs.Points.{points_head, proc_path, text_if, kind_words, point_line, point_lines, points_text};

use pn_types::{NoMemory, Point, Proc};
use std::alloc::Global;

/// The line of the numbers of points and of skipped symbols.
fn add_head(
    alloc: Global,
    out: &mut Vec<u8>,
    points: &[Point],
    skipped: u32,
) -> Result<(), NoMemory>
    ensures { OnOk result (out.new.items ≡ out.old.items ++ points_head points.now skipped) }
{
    let count = points.len();
    let line = format!(in alloc; "points {count} skipped {skipped}\n")?;
    out.extend_from_slice(line.as_bytes())
}

/// The text, where it is wanted.
fn add_if(out: &mut Vec<u8>, wanted: bool, text: &[u8]) -> Result<(), NoMemory>
    ensures { OnOk result (out.new.items ≡ out.old.items ++ text_if wanted text.now) }
{
    if wanted {
        return out.extend_from_slice(text);
    }
    Ok(())
}

/// The words of the kinds that hold.
fn add_kinds(out: &mut Vec<u8>, point: &Point) -> Result<(), NoMemory>
    ensures { OnOk result (out.new.items ≡ out.old.items ++ kind_words point.now) }
{
    add_if(out, point.entry, b" entry")?;
    add_if(out, point.after, b" after")?;
    add_if(out, point.ret, b" return")?;
    add_if(out, point.call, b" call")
}

/// The module and the name of the procedure at a place, if there is one.
fn add_path(out: &mut Vec<u8>, procs: &[Proc], place: u32) -> Result<(), NoMemory>
    ensures { OnOk result (out.new.items ≡ out.old.items ++ proc_path (slice_get procs.now place)) }
{
    let Some(proc) = procs.get(place as usize) else {
        return Ok(());
    };
    out.extend_from_slice(proc.module.bytes())?;
    out.extend_from_slice(b"/")?;
    out.extend_from_slice(proc.name.bytes())
}

/// The line of a point.
fn add_point(
    alloc: Global,
    out: &mut Vec<u8>,
    procs: &[Proc],
    point: &Point,
) -> Result<(), NoMemory>
    ensures { OnOk result (out.new.items ≡ out.old.items ++ point_line procs.now point.now) }
{
    let at = point.at;
    let address = format!(in alloc; "0x{at:x} ")?;
    out.extend_from_slice(address.as_bytes())?;
    add_path(out, procs, point.proc_no)?;
    add_kinds(out, point)?;
    out.extend_from_slice(b"\n")
}

/// The lines of all points.
fn add_points(
    alloc: Global,
    out: &mut Vec<u8>,
    procs: &[Proc],
    points: &[Point],
) -> Result<(), NoMemory>
    ensures { OnOk result (out.new.items ≡ out.old.items ++ point_lines procs.now points.now) }
{
    for point in points {
        add_point(alloc, out, procs, point)?;
    }
    Ok(())
}

/// Returns the text of points: a line `points N skipped K`, and then for each point, in their order, a line with its address,
/// its procedure as `MODULE/NAME`, and the words of its kinds out of `entry`, `after`, `return` and `call`. The number
/// `skipped` is that of the function symbols that are no procedures. Where a point's procedure is not among `procs`,
/// nothing stands in its line in place of `MODULE/NAME`.
///
/// # Errors
///
/// `NoMemory` where memory runs out.
pub fn points_text(
    alloc: Global,
    procs: &[Proc],
    points: &[Point],
    skipped: u32,
) -> Result<Vec<u8>, NoMemory>
    ensures { IfOk result (λ text. text.items ≡ points_text procs.now points.now skipped) }
{
    let mut out = Vec::new(alloc);
    add_head(alloc, &mut out, points, skipped)?;
    add_points(alloc, &mut out, procs, points)?;
    Ok(out)
}
