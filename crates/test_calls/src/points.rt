//! Programs with their procedures, points and objects.

ghost use Rattle.std.specs.Prelude.{◌<◌, ◌^◌, length};
ghost use Rattle.pn_types.specs.Images.{IsImage};

use crate::comparison::compare;
use code_points::{objects, points, procedures};
use pn_types::{Image, NoMemory, Point, Proc, Seq, SymKind, Symbol, Text};
use rv_asm::{AsmError, assemble};
use std::alloc::Global;

/// Returns the program with these symbols instead of its own.
fn with_symbols(image: Image, symbols: Vec<Symbol>) -> Image
    requires image { IsImage image }
    requires few { length symbols.items < 2 ^ 32 }
    ensures { IsImage result }
{
    Image {
        symbols: Seq::from_vec(symbols),
        ..image
    }
}

/// A point: its address, the number of its procedure, and its kinds: entry (e), after a call (a), return (r) and call (c).
type Row = (u64, u32, &'static [u8]);

fn point_of(row: &Row) -> Point {
    let (at, proc_no, kinds) = *row;
    Point {
        at,
        proc_no,
        entry: kinds.contains(&b'e'),
        after: kinds.contains(&b'a'),
        ret: kinds.contains(&b'r'),
        call: kinds.contains(&b'c'),
    }
}

/// Returns whether these are the points of the text's procedures, of which none is skipped.
fn has_points(alloc: Global, text: &[u8], rows: &[Row]) -> Result<bool, AsmError>
    requires { length text.now < 2 ^ 31 }
{
    let image = assemble(alloc, text)?;
    let (procs, skipped) = procedures(alloc, &image)?;
    let points = points(alloc, &image, &procs)?;
    Ok(skipped == 0 && are_points(&points, rows))
}

fn are_points(points: &[Point], rows: &[Row]) -> bool {
    for (place, row) in rows.iter().enumerate() {
        if points.get(place) != Some(&point_of(row)) {
            return false;
        }
    }
    points.len() == rows.len()
}

/// `main` calls `f` twice, then exits.
#[test]
fn lists_points(rt: HostRuntime) {
    let text = b".proc m\ncall f\ncall f\nli a7, 93\necall\n.end\n.proc f\nret\n.end\n";
    let rows: [Row; 4] = [
        (0x10000, 0, b"ec"),
        (0x10004, 0, b"ac"),
        (0x10008, 0, b"a"),
        (0x10010, 1, b"er"),
    ];
    compare(&rt, has_points(rt.alloc(), text, &rows).ok(), Some(true));
}

/// A jump in its procedure, a call that ends it, a jump out of the next one, `jr t0`, a call by t0 and what follows.
#[test]
fn tells_kinds_apart(rt: HostRuntime) {
    let text =
        b".proc f\na: j a\nb: call c\n.end\n.proc g\nj b\nc: jalr zero, 0(t0)\njalr ra, 0(t0)\nnop\n.end\n";
    let rows: [Row; 6] = [
        (0x10000, 0, b"e"),
        (0x10004, 0, b"c"),
        (0x10008, 1, b"er"),
        (0x1000c, 1, b"r"),
        (0x10010, 1, b"c"),
        (0x10014, 1, b"a"),
    ];
    compare(&rt, has_points(rt.alloc(), text, &rows).ok(), Some(true));
}

/// Symbols by their names, kinds, addresses and sizes. The second `l` by address has the name of the first, and `a` stands after
/// `m` among them.
const SYMBOLS: [(u8, SymKind, u64, u64); 11] = [
    (b'l', SymKind::Func, 0x10010, 4),
    (b'd', SymKind::Object, 0x10000, 8),
    (b'm', SymKind::Func, 0x10000, 8),
    (b'a', SymKind::Func, 0x10000, 8),
    (b'/', SymKind::Func, 0x1000c, 4),
    (b'l', SymKind::Func, 0x1000c, 4),
    (b't', SymKind::Func, 0x10008, 4),
    (b'o', SymKind::Func, 0x10012, 2),
    (b'e', SymKind::Func, 0x10010, 0),
    (b'u', SymKind::Func, 0x10010, 8),
    (b'b', SymKind::Func, 0xfffc, 8),
];

/// Returns a symbol of the module `program`.
fn symbol(alloc: Global, name: u8, kind: SymKind, at: u64, size: u64) -> Result<Symbol, NoMemory> {
    let name = Text::from_vec(vec![in alloc; name]?);
    let module = Text::from_vec(Vec::from_slice(alloc, b"program")?);
    Ok(Symbol {
        name,
        kind,
        at,
        size,
        module,
    })
}

fn symbols(alloc: Global) -> Result<Vec<Symbol>, NoMemory> {
    let mut symbols = Vec::new(alloc);
    for (name, kind, at, size) in SYMBOLS {
        symbols.push(symbol(alloc, name, kind, at, size)?)?;
    }
    Ok(symbols)
}

/// Returns whether a procedure has this name, its first address and its length.
fn place_of(procedure: &Proc, name: &[u8]) -> (bool, u64, u64) {
    (
        procedure.name.bytes() == name,
        procedure.start,
        procedure.len,
    )
}

/// Returns the places of the procedures `m`, `t` and `l`, and how many symbols are skipped; none where there are other symbols or
/// procedures.
fn keep_procedures(alloc: Global) -> Option<([(bool, u64, u64); 3], u32)> {
    let symbols = symbols(alloc).ok()?;
    if symbols.len() != SYMBOLS.len() {
        return None;
    }
    let image = assemble(alloc, b"nop\nnop\nnop\nnop\nnop\n").ok()?;
    let image = with_symbols(image, symbols);
    let (procs, skipped) = procedures(alloc, &image).ok()?;
    let [m, t, l] = procs.as_slice() else {
        return None;
    };
    let places = [place_of(m, b"m"), place_of(t, b"t"), place_of(l, b"l")];
    Some((places, skipped))
}

#[test]
fn keeps_procedures(rt: HostRuntime) {
    let places = [(true, 0x10000, 8), (true, 0x10008, 4), (true, 0x1000c, 4)];
    compare(&rt, keep_procedures(rt.alloc()), Some((places, 7)));
}

/// Returns whether the text's one object is named `o`.
fn list_objects(alloc: Global) -> Result<bool, AsmError> {
    let text = b".proc f\nret\n.end\n.data\n.object o 2\n.half -1\n";
    let image = assemble(alloc, text)?;
    let objects = objects(alloc, &image)?;
    Ok(match objects.as_slice() {
        [object] => object.name.bytes() == b"o".as_slice(),
        _ => false,
    })
}

#[test]
fn lists_objects(rt: HostRuntime) {
    compare(&rt, list_objects(rt.alloc()).ok(), Some(true));
}
