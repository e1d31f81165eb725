//! Numbers that are drawn from a seed.

ghost use Rattle.std.specs.Prelude.{◌≡◌, ◌≤◌, ◌<◌};
ghost use Rattle.stress_run.specs.Program.{drawn};
ghost use Rattle.turn_order.specs.Orders.{generated};

use std::marker::Model;
use turn_order::generated;

/// The numbers that are drawn from a seed, one after another. Contracts see the generator's state.
#[derive(Drop)]
pub(crate) struct Draws {
    state: u64,
}

impl Model for Draws {
    ghost use Rattle.std.specs.Prelude.{ℕ};

    ghost Value = { ℕ };

    ghost view = { λ draws. draws.state };
}

impl Draws {
    /// Makes the numbers of a seed, of which none is drawn yet.
    pub(crate) fn of_seed(seed: u32) -> Draws
        ensures { result ≡ seed }
    {
        Draws {
            state: u64::from(seed),
        }
    }

    /// Draws the next number, which is below the bound.
    #[tactic(auto, unfolding(crate::specs::Program::drawn))]
    pub(crate) fn draw(&mut self, below: u64) -> u64
        requires { 1 ≤ below }
        ensures below { result < below }
        ensures number { result ≡ drawn below self.old }
        ensures state { self.new ≡ generated self.old }
    {
        self.state = generated(self.state);
        (self.state >> 33) % below
    }
}
