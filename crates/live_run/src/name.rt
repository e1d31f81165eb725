//! Names of shared runs.

use std::marker::Brand;

/// Names a run: the inputs of its session, the quanta that it has at first, the number of workers, and the word that counts.
pub trait RunName {
    ghost use Rattle.std.specs.Prelude.{ℕ, List};
    ghost use Rattle.atomic_table.specs.Seated.{TableId};
    ghost use Rattle.session_spec.specs.Inputs.{Inputs};
    ghost use Rattle.pn_types.specs.declared.quantum.Quantum.{Quantum};

    ghost inputs: { Inputs };

    ghost first: { List Quantum };

    ghost workers: { ℕ };

    ghost word: { TableId };
}

// A brand alone names nothing: each call at `Brand` picks what it names there.
impl RunName for Brand {
    ghost use Rattle.std.specs.Prelude.{[]};
    ghost use Rattle.live_run.specs.Unnamed.{no_word, no_inputs};

    ghost inputs = { no_inputs };

    ghost first = { [] };

    ghost workers = { 0 };

    ghost word = { no_word };
}
