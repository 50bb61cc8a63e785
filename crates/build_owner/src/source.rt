// What a walk is made from.
use program_check::Checked;
use std::alloc::Global;

/// What a walk is made from: the program.
#[derive(Clone, Copy)]
pub struct WalkSource<'a> {
    pub alloc: Global,
    pub checked: &'a Checked,
}

/// Before items of lazy lists are entered by what is seen, and when they are.
#[derive(Clone, Copy)]
pub(crate) enum Phase {
    First,
    Second,
}

/// How deep a tree may be, the root being at depth 1.
pub const DEPTH_LIMIT: u32 = 512;
