//! Workers, and what they are to do.

/// Workers, and what they are to do. Worker w has the harts whose numbers modulo the workers are w.
#[derive(Clone, Copy, PartialEq, Eq, Drop)]
pub struct Team {
    /// How many workers, from 1 to [`MAX_WORKERS`](pn_types::MAX_WORKERS).
    pub workers: u32,
    /// The harts of the session.
    pub harts: u32,
    /// The most turns of each quantum, from 1 to [`MAX_QUANTUM`](pn_types::MAX_QUANTUM).
    pub turns: u32,
}
