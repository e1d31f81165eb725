//! The blocks of the programs' first word, and counters on them.

ghost use Rattle.std.specs.Prelude.{◌≡◌, ◌<◌, ◌^◌, IfOk};
ghost use Rattle.test_examples.specs.FirstTurns as turns;
ghost use Rattle.test_examples.specs.LoopCounted as example;
ghost use Rattle.test_examples.specs.ThreeCounters.{counter_on, mini_on};

use pn_types::{Act, NoMemory, Placed, PlacedSite, Seq, Stmt, Text, Var};
use prim_code::compile;
use std::alloc::Global;
use tramp_build::{base_block, mini_block};
use tramp_spec::{Block, MarkedWord, Moved};

/// The first word of each program.
pub const POINT: u64 = 0x10000;

/// The base block of the loop's word, at 0x11000.
///
/// # Errors
///
/// `NoMemory` if memory runs out.
pub fn loop_base(alloc: Global) -> Result<Block, NoMemory>
    ensures { IfOk result (λ block. block ≡ example.loop_base) }
{
    let moved = Moved::new(&[MarkedWord::own(0xff5f_e06f)]);
    Ok(base_block(POINT, 0x11000, &moved, Vec::with_capacity(alloc, 7)?))
}

/// The base block of the first of the three words, at 0x11000.
///
/// # Errors
///
/// `NoMemory` if memory runs out.
pub fn words_base(alloc: Global) -> Result<Block, NoMemory>
    ensures { IfOk result (λ block. block ≡ turns.first_base) }
{
    let moved = Moved::new(&[MarkedWord::own(0x0015_0513), MarkedWord::leave(0xff5f_e06f)]);
    Ok(base_block(POINT, 0x11000, &moved, Vec::with_capacity(alloc, 7)?))
}

/// A mini block that counts on a slot, and leads to the next.
///
/// # Errors
///
/// `NoMemory` if memory runs out.
pub fn mini(alloc: Global, slot: u32, at: u64, next: u64) -> Result<Block, NoMemory>
    requires { at < 2 ^ 62 }
    ensures { IfOk result (λ block. block ≡ mini_on slot at next) }
{
    let mut stmts = Vec::new(alloc);
    stmts.push(Stmt {
        conds: Seq::from_vec(Vec::new(alloc)),
        act: Act::Up(0),
    })?;
    let mut words = Vec::with_capacity(alloc, 5)?;
    compile(stmts.as_slice(), &[slot], &mut words);
    Ok(mini_block(POINT, at, words, next))
}

/// A counter on a slot, with a mini block at an address.
///
/// # Errors
///
/// `NoMemory` if memory runs out.
pub fn counter(alloc: Global, slot: u32, mini: u64) -> Result<Placed, NoMemory>
    ensures { IfOk result (λ placed. placed ≡ counter_on slot mini) }
{
    let mut vars = Vec::new(alloc);
    vars.push(Var {
        name: Text::from_vec(b"rounds".to_vec(alloc)?),
        timer: false,
        initially: 0,
    })?;
    Ok(Placed {
        vars: Seq::from_vec(vars),
        slots: Seq::from_vec(vec![in alloc; slot]?),
        sites: Seq::from_vec(vec![in alloc; PlacedSite { at: POINT, mini }]?),
        opens: Seq::from_vec(Vec::new(alloc)),
    })
}
