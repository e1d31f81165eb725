//! The orders of harts.

ghost use Rattle.std.specs.Prelude.{◌≡◌, List, ℕ, ◌∷◌};
ghost use Rattle.turn_order.specs.Orders.{chosen, order_after, order_of_seed, generated};

use crate::ready::Ready;
use pn_types::HartNo;

/// The order in which harts take their quanta.
#[derive(Clone, Copy, Debug, PartialEq, Eq, Drop)]
pub enum Order {
    /// Round and round: the next is the first hart from this number on that may go, or else the first that may.
    RoundRobin(u32),
    /// By a generator of this state: its next value picks among the harts that may go.
    Random(u64),
}

/// The next value of the generator.
pub fn generated(x: u64) -> u64
    ensures { result ≡ generated x }
{
    x.wrapping_mul(6_364_136_223_846_793_005)
        .wrapping_add(1_442_695_040_888_963_407)
}

impl Order {
    /// The order of a seed: 0 goes round, any other number begins the generator.
    pub fn of_seed(seed: u32) -> Order
        ensures { result ≡ order_of_seed seed }
    {
        if seed == 0 {
            Order::RoundRobin(0)
        } else {
            Order::Random(seed as u64)
        }
    }

    /// Picks the hart that is next among those that may go. Returns `None` where none may.
    pub fn pick(&self, ready: &Ready) -> Option<HartNo>
        ensures { result ≡ chosen self.now ready.now }
    {
        match *self {
            Order::RoundRobin(next) => match ready.first_from(next) {
                Some(hart) => Some(hart),
                None => ready.at(0),
            },
            Order::Random(state) => {
                let count = ready.count() as u64;
                if count == 0 {
                    return None;
                }
                ready.at(((generated(state) >> 33) % count) as usize)
            }
        }
    }

    /// The order after this hart was picked.
    pub fn after(&self, hart: HartNo) -> Order
        ensures { result ≡ order_after self.now hart }
    {
        match *self {
            Order::RoundRobin(_) => Order::RoundRobin(hart.get() + 1),
            Order::Random(state) => Order::Random(generated(state)),
        }
    }
}
