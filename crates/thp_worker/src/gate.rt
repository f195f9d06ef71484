//! A hook before each command of a worker.

/// A hook before each command of a worker. Tests use it to make workers meet on a node in a chosen order.
pub trait Gate {
    /// Runs on the worker's thread before its command `index`, counted from 0, and once more with the number of its commands
    /// after its last answer. A gate has no effect on the output of a run.
    fn pass(&self, worker: u32, index: u32);
}

/// A gate that is always open.
#[derive(Clone, Copy, Debug)]
pub struct NoGate;

impl Gate for NoGate {
    fn pass(&self, _worker: u32, _index: u32) {}
}
