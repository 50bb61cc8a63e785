// What becomes of what a run holds when it has ended.

use super::stage::Job;
use std::mem;

/// What becomes of the memory that a run holds when it has ended.
#[derive(Clone, Copy)]
pub enum AtEnd {
    /// It is let go, node by node, for a process that goes on.
    LetGo,
    /// It is left as it is, for a process that ends.
    Left,
}

// Ends with the job of a run.
pub(crate) fn end_job(job: Job, rest: AtEnd) {
    match rest {
        AtEnd::LetGo => mem::drop(job),
        AtEnd::Left => mem::forget(job),
    }
}
