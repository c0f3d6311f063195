//! What is told as each job starts.

/// Is told of each job, as it starts and in its own thread.
pub trait Gate: Sync {
    /// The job of this number starts. The numbers go from 0 up.
    fn started(&self, job: u32);
}

/// A gate that does nothing.
#[derive(Clone, Copy, Debug)]
pub struct OpenGate;

impl Gate for OpenGate {
    fn started(&self, _job: u32) {}
}
