//! Words that a hart runs one after another.

ghost use Rattle.std.specs.Prelude.{◌≡◌, ◌≤◌, ◌<◌, None, length};
ghost use Rattle.rv_exec.specs.Shared.{prog_in};
ghost use Rattle.machine.specs.Stretches.{AreRun};

use code_store::Store;
use pn_types::HartNo;
use rv_exec::{Caller, Pc, Regs, Shared};

/// Words one after another.
struct Stretch;

impl Caller for Stretch {}

/// Runs words of the program from pc on, by a hart that is outside and isn't stopped: at most `most`, until one comes after which the
/// hart doesn't just go on, or until the text has no word of the program at the pc. Returns how many, and takes no memory.
#[inline(always)]
pub fn run_words(
    most: u32,
    number: HartNo,
    pc: &mut u64,
    regs: &mut Regs,
    store: &Store,
    shared: &mut Shared,
) -> u32
    requires { number < length shared.old.resv }
    ensures ran { AreRun store.now number result
        (record { pc = pc.old; stop = None; regs = regs.old; prog = prog_in shared.old })
        (record { pc = pc.new; stop = None; regs = regs.new; prog = prog_in shared.new }) }
    ensures bound { result ≤ most }
    ensures harts { length shared.new.resv ≡ length shared.old.resv }
{
    let (text_at, flats) = store.flats();
    let Some(mut at) = Pc::new(text_at, *pc) else {
        return 0;
    };
    for turns in 0..most {
        if at.place >= flats.len() as u64 {
            *pc = at.address();
            return turns;
        }
        let flat = &flats[at.place as usize];
        if !flat.run::<Stretch>(number, &mut at, regs, shared) {
            *pc = at.address();
            return turns;
        }
    }
    *pc = at.address();
    most
}
