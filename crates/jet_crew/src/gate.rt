// A gate that each worker enters at each epoch, so that tests can see and order the work of the workers.

/// What a worker enters at the start of an epoch, before its first turn.
pub trait Gate {
    /// Takes the worker's number, from 0 on, and the number of the epoch. It may wait for other workers.
    fn enter(&self, worker: u32, epoch: u64);
}

/// A gate that lets each worker in at once.
#[derive(Clone, Copy)]
pub struct FreeGate;

impl Gate for FreeGate {
    fn enter(&self, _worker: u32, _epoch: u64) {}
}
