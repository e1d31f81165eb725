//! Gates at which workers may be made to wait, and one that is always open.

/// A place at which a worker may be made to wait before it takes a quantum.
pub trait Gate {
    /// Is called before the call number `n`, from 0, in which this worker asks for a quantum. It may wait, and changes
    /// nothing else.
    fn pass(&self, worker: u32, n: u64);
}

/// A gate that never makes a worker wait.
#[derive(Clone, Copy, Debug, PartialEq, Eq, Drop)]
pub struct OpenGate;

impl Gate for OpenGate {
    fn pass(&self, _worker: u32, _n: u64) {}
}
