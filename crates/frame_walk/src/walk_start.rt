//! Where walks start.

/// Where the walk starts of a hart that isn't stopped.
#[derive(Clone, Copy, PartialEq, Eq, Drop)]
pub struct WalkStart {
    /// Its pc.
    pub pc: u64,
    /// Its x1, the return address.
    pub ra: u64,
    /// Its x8, the frame pointer.
    pub fp: u64,
}
