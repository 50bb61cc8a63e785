ghost use Rattle.std.specs.Prelude.{◌≤◌, length, vec_capacity};

use crate::gesture::ArenaEvent;
use crate::held::HeldPointer;
use fx_geom::Scale;
use std::alloc::Global;

/// The pointers that are down, each with its members and its arena, and the events that are left to be taken.
#[derive(Drop)]
pub struct Pointers {
    pub(crate) alloc: Global,
    pub(crate) scale: Scale,
    // In order of down.
    pub(crate) held: Vec<HeldPointer>,
    pub(crate) events: Vec<ArenaEvent>,
    // A call has at most two events for each pointer, and room for them was taken at the start.
    ghost few: { length held.items ≤ 32 },
    ghost room: { 64 ≤ vec_capacity events },
}
