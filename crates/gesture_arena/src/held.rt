// What is stored of one pointer that is down, in place of its moments.
ghost use Rattle.std.specs.Prelude.{◌≡◌, ◌&&◌, false, map};
ghost use Rattle.std.specs.List.{list_any};
ghost use Rattle.gesture_arena.specs.Answering.{answered};
ghost use Rattle.gesture_arena.specs.Marks.{NoneIsMarked};
ghost use Rattle.gesture_arena.specs.Settled.{has_accepted, is_open};

use crate::answers::Answers;
use crate::marks::Marks;
use crate::place::PointerPlace;
use crate::tracked::{ArenaState, Tracked};

#[derive(Drop)]
pub struct HeldPointer {
    pub number: u32,
    // Where it went down, and where it is.
    pub from: PointerPlace,
    pub last: PointerPlace,
    // When it went down, and whether its deadline has come.
    pub began: u64,
    pub is_due: bool,
    pub arena: ArenaState,
    // What each gesture has decided, which is still to be given to the members.
    pub answers: Answers,
    // All its members, in order.
    pub members: Vec<Tracked>,
    // Their marks, of which there are some at a drop alone.
    pub marks: Marks,
    pub ghost unmarked: { NoneIsMarked marks },
    // No member of an open arena has accepted.
    pub ghost quiet: { (is_open arena && list_any has_accepted (map (answered answers) members.items)) ≡ false },
}
