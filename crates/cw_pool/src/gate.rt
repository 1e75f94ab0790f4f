//! The observer of the workers' steps.

/// A step of a worker.
#[derive(Clone, Copy, Debug)]
pub enum Moment {
    /// The worker offered a job.
    Offered,
    /// The worker stole a job.
    Stolen,
    /// The worker left the effect of a stolen job for the worker that offered the job.
    Settled,
    /// The worker is at a join, and checks next what became of the newest job out there. Reported at each such check.
    AtJoin,
}

/// An observer: it is called right after each step that `Moment` lists, by the worker's own thread, which continues
/// when the call returns. It never changes the result of a run.
pub trait Gate {
    /// Observes a step. Worker 0 is the caller of a run, and the other workers are its bodies, in order.
    fn turn(&self, worker: usize, what: Moment);
}

/// The gate that does nothing.
#[derive(Drop)]
pub struct Quiet;

impl Gate for Quiet {
    fn turn(&self, _worker: usize, _what: Moment) {}
}
