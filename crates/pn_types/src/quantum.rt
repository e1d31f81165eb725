//! Quanta, of which a log is the list.

/// A quantum: a hart took as many turns as were asked for, or fewer where it could take no more.
#[derive(Clone, Copy, PartialEq, Eq, Drop)]
pub struct Quantum {
    /// The worker that gave it, below [`MAX_WORKERS`](crate::MAX_WORKERS).
    pub worker: u8,
    /// The hart that had it, below the settings' harts.
    pub hart: u8,
    /// How many turns were asked for, from 1 to [`MAX_QUANTUM`](crate::MAX_QUANTUM).
    pub turns: u16,
    /// How many of the program's own words were executed, at most 65,535.
    pub owns: u16,
}
