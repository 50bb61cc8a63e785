// How a command ends.
use crate::refusal::Refusal;
use build_form::FrameFault;

/// How a command ends.
#[derive(Drop)]
pub enum LineEnd {
    /// It was done.
    Done,
    /// It was refused, and changed nothing.
    Refused(Refusal),
    /// A frame has this fault, which ends the run; the session still stands for the state before. It is never want of memory.
    Fault(FrameFault),
}
