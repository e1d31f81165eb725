//! Tables of names.

ghost use Rattle.std.specs.Prelude.{◌≡◌, map};
ghost use Rattle.rv_asm.specs.Registers.{named};

/// What stands beside the name in the first row that has it.
pub(crate) fn named_row<A: Copy>(name: &[u8], rows: &[(&[u8], A)]) -> Option<A>
    ensures { result ≡ named name.now (map (λ row. (row.0.now, row.1)) rows.now) }
{
    for row in rows {
        if name == row.0 {
            return Some(row.1);
        }
    }
    None
}
