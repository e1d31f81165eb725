//! What must not be written over.

ghost use Rattle.std.specs.Prelude.{◌≡◌, ◌⊎◌, map, true};
ghost use Rattle.std.specs.List.{list_any};
ghost use Rattle.outside.specs.Causes.{Rose};
ghost use Rattle.pn_text.specs.Bytes.{begins_with};
ghost use Rattle.pd_run.specs.Guards.{MayGo, beginnings_of};

use crate::kinds::Kind;
use outside::Files;

/// Returns whether bytes begin as one of these texts.
fn begins_as_one(bytes: &[u8], fronts: &[&[u8]]) -> bool
    ensures { result ≡ list_any (λ front. begins_with front.now bytes.now) fronts.now }
{
    fronts.iter().any(|front| bytes.starts_with(*front))
}

/// Returns whether bytes begin as files of a kind do.
fn begins_as(bytes: &[u8], kind: Kind) -> bool
    ensures { result ≡ list_any (λ front. begins_with front bytes.now) (beginnings_of kind) }
{
    begins_as_one(bytes, kind.beginnings())
}

/// Returns whether a file may be written over: it can't be read, as where it isn't there, or is empty, or begins as one of the kind.
pub fn may_write<F: Files>(files: &mut F, name: &str, kind: Kind) -> bool
    ensures { result ≡ true → Rose (F.faults files.old name.now) (F.faults files.new name.now) ⊎ MayGo kind (F.holds files.old name.now) }
{
    let mut front = [0; 32];
    match files.read_at(name, 0, &mut front) {
        Ok(0) => true,
        Ok(count) => begins_as(&front[..count], kind),
        Err(_) => true,
    }
}
