//! The counter of a basic block.

ghost use Rattle.std.specs.Prelude.{◌≡◌, ◌+◌, ◌<◌, ◌≤◌, ◌^◌, length, IfOk};
ghost use Rattle.block_count.specs.Counters.{base_of, end_of, mini_at, mini_of, placed_of};

use pn_types::{Act, NoMemory, Placed, PlacedSite, Seq, Stmt, Text, Var};
use prim_code::compile;
use std::alloc::Global;
use std::marker::Model;
use tramp_build::{base_block, mini_block};
use tramp_spec::{Block, MarkedWord, Moved};

/// The counter of a basic block, by the address of its first word.
#[derive(Drop)]
pub struct Counter {
    /// The address of the word.
    pub point: u64,
    /// The slot that counts.
    pub slot: u32,
    /// The address of its base block.
    pub at: u64,
    /// The words that do there what the word does at its own address.
    pub moved: Moved,
}

impl Model for Counter {
    ghost use Rattle.std.specs.Prelude.{◌<◌, ◌^◌};
    ghost use Rattle.block_count.specs.Counters as table;

    ghost Value = { table.Counter };

    ghost view = { λ c. record { point = c.point; slot = c.slot; at = c.at; moved = c.moved } };

    ghost invariant = { λ c. c.at < 2 ^ 62 };
}

impl Counter {
    /// Returns the words that do what its word does.
    fn words(&self) -> &[MarkedWord]
        ensures words { result.now ≡ self.now.moved }
        ensures few { length result.now ≤ 4 }
    {
        self.moved.as_slice()
    }

    /// Returns the address of its mini block.
    pub fn mini_at(&self) -> u64
        ensures at { result ≡ mini_at self.now }
        ensures low { result < 2 ^ 62 + 32 }
    {
        self.at + 4 * (3 + self.words().len() as u64)
    }

    /// Returns the address after its blocks.
    pub fn end(&self) -> u64
        ensures { result ≡ end_of self.now }
    {
        self.mini_at() + 20
    }

    /// Makes its base block.
    ///
    /// # Errors
    ///
    /// `NoMemory` where memory runs out.
    pub fn base(&self, alloc: Global) -> Result<Block, NoMemory>
        ensures { IfOk result (λ block. block ≡ base_of self.now) }
    {
        let words = Vec::with_capacity(alloc, 7)?;
        Ok(base_block(self.point, self.at, &self.moved, words))
    }

    /// Makes its mini block.
    ///
    /// # Errors
    ///
    /// `NoMemory` where memory runs out.
    pub fn mini(&self, alloc: Global) -> Result<Block, NoMemory>
        ensures { IfOk result (λ block. block ≡ mini_of self.now) }
    {
        let stmts = [Stmt {
            conds: Seq::from_vec(Vec::new(alloc)),
            act: Act::Up(0),
        }];
        let mut words: Vec<MarkedWord> = Vec::with_capacity(alloc, 5)?;
        compile(&stmts, &[self.slot], &mut words);
        Ok(mini_block(self.point, self.mini_at(), words, self.at + 8))
    }

    /// Returns the counter as an instrument.
    ///
    /// # Errors
    ///
    /// `NoMemory` where memory runs out.
    pub fn placed(&self, alloc: Global) -> Result<Placed, NoMemory>
        ensures { IfOk result (λ placed. placed ≡ placed_of self.now) }
    {
        let var = Var {
            name: Text::from_vec(b"passes".to_vec(alloc)?),
            timer: false,
            initially: 0,
        };
        let site = PlacedSite {
            at: self.point,
            mini: self.mini_at(),
        };
        Ok(Placed {
            vars: Seq::from_vec(vec![in alloc; var]?),
            slots: Seq::from_vec(vec![in alloc; self.slot]?),
            sites: Seq::from_vec(vec![in alloc; site]?),
            opens: Seq::from_vec(Vec::new(alloc)),
        })
    }
}
