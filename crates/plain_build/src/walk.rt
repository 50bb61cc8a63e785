// How far a build has come.
ghost use Rattle.std.specs.Prelude.{◌+◌, ◌-◌, ◌<◌, ◌^◌};

use fx_expr::Value;
use plain_tree::Node;
use std::collections::{BTreeSet, VecDeque};

/// How far a build has come: how many widgets were entered, which global keys were met, the number of the next node that
/// is made, and what each lazy list goes on from whose items are to be entered yet, in order.
#[derive(Drop)]
pub(crate) struct BuildWalk<'a> {
    pub(crate) entered: u32,
    pub(crate) met: BTreeSet<Value>,
    pub(crate) next: u64,
    pub(crate) waiting: VecDeque<Option<&'a Node>>,
    ghost room: { next + (1048576 - entered) < 2 ^ 64 },
}
