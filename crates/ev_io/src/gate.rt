//! A gate that each job passes before it runs, so that a test can watch or hold up jobs.

/// Passed once before each job of a run, from whichever thread runs the job.
pub trait Gate: Sync {
    fn pass(&self, index: u64);
}

/// The gate that lets every job through at once.
#[derive(Clone, Copy)]
pub struct OpenGate;

impl Gate for OpenGate {
    fn pass(&self, _index: u64) {}
}
