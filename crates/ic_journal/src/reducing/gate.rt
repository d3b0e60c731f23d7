/// What is called round each commit of a reduction, by the worker that makes it: a commit is the call that fires an
/// event. No lock is held then, so a gate may hold a worker back. Tickets are distinct.
pub trait Gate: Sync {
    /// Before a commit is made.
    fn before_commit(&self, worker: usize, ticket: u64);

    /// Once it was answered.
    fn after_commit(&self, worker: usize, ticket: u64);
}

/// The gate that holds nobody back.
pub struct NoGate;

impl Gate for NoGate {
    fn before_commit(&self, _worker: usize, _ticket: u64) {}

    fn after_commit(&self, _worker: usize, _ticket: u64) {}
}
