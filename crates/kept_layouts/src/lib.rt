//! Which changes of a tree of render nodes leave the layouts right that it keeps: marks tell what may have to be laid out again, and
//! nothing else changes what a rule reads. The items of lazy lists have no part in where the lists lie.
#![tactic(auto)]

mod laws;

pub use laws::{
    changed_delegates_keep_layouts, closedness_is_by_members, commits_keep_layouts,
    lists_lie_without_their_items, paint_marks_keep_layouts, scrolls_keep_layouts,
};
