//! Marks on the nodes of a tree: a node that changed has a flag, and so have those above it up to the nearest boundary; every
//! node above has "something below" (`RenderObject.markNeedsLayout`, `RenderObject.markNeedsPaint`).
#![tactic(auto)]

mod climb;
mod laws;
mod marks;
mod sweep;

pub use laws::{
    commits_are_told, commits_settle, forests_tell_their_stores, laws_survive_commits,
    marks_are_told, sweeps_mark_all, worked_marks,
};
pub use marks::{Marks, mark, mark_each};
