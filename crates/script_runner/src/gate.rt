//! What is called round each statement of a thread.

/// Is told of each statement of each thread as it runs, by the thread's number and the statement's, both from 1, in the
/// thread itself (own).
pub trait Gate {
    /// The statement begins.
    fn before(&self, thread: usize, statement: u32);

    /// The statement has run, with all that ended by it.
    fn after(&self, thread: usize, statement: u32);
}

/// A gate that does nothing.
pub struct Open;

impl Gate for Open {
    fn before(&self, _thread: usize, _statement: u32) {}

    fn after(&self, _thread: usize, _statement: u32) {}
}
