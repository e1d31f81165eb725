//! Appends to lists that have room.

ghost use Rattle.std.specs.Prelude.{◌≡◌, ◌+◌, ◌<◌, ◌≤◌, ◌++◌, ◌∷◌, [], vec_len, vec_capacity};

use pn_types::{Focus, Quantum};
use session_spec::RefusedWish;

/// Appends a refused wish, for which there is room.
pub(crate) fn put_refused(list: &mut Vec<RefusedWish>, refused: RefusedWish)
    requires { vec_len list.old < vec_capacity list.old }
    ensures items { list.new.items ≡ list.old.items ++ refused ∷ [] }
    ensures len { vec_len list.new ≡ vec_len list.old + 1 }
    ensures room { vec_capacity list.old ≤ vec_capacity list.new }
{
    // There is room, so this can't fail. The focus is written out here, since the prover doesn't take one that was made elsewhere.
    let _room = list.push(RefusedWish {
        show: refused.show,
        metric: refused.metric,
        focus: Focus {
            code: refused.focus.code,
            hart: refused.focus.hart,
            object: refused.focus.object,
        },
        at: refused.at,
        cause: refused.cause,
    });
}

/// Appends a quantum, for which there is room.
#[inline(always)]
pub(crate) fn put_quantum(list: &mut Vec<Quantum>, quantum: Quantum)
    requires { vec_len list.old < vec_capacity list.old }
    ensures items { list.new.items ≡ list.old.items ++ quantum ∷ [] }
{
    list.push_reserved(quantum);
}
