// What a build is made from.
use fx_expr::Value;
use plain_tree::Node;
use program_check::Checked;
use std::alloc::Global;
use std::collections::BTreeMap;

/// What a build is made from: the program, and the node of the old tree that had each global key.
#[derive(Drop)]
pub(crate) struct Basis<'a> {
    pub(crate) alloc: Global,
    pub(crate) checked: &'a Checked,
    pub(crate) holders: BTreeMap<Value, &'a Node>,
}

/// Before items of lazy lists are entered by what is seen, and when they are.
#[derive(Clone, Copy)]
pub(crate) enum Phase {
    First,
    Second,
}

/// How deep a tree may be, the root being at depth 1.
pub(crate) const DEPTH_LIMIT: u32 = 512;
