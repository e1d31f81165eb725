//! An instrument that isn't gone.

use crate::number::State;
use pn_types::Placed;

/// An instrument that isn't gone.
#[derive(Drop)]
pub struct Instrument {
    /// Its number among all that were admitted, from 0.
    pub no: u64,
    /// Where it acts.
    pub placed: Placed,
    /// How far it has come.
    pub state: State,
}
