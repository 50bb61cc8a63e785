ghost use Rattle.std.specs.Prelude.{◌≡◌};
ghost use Rattle.gesture_arena.specs.Settled.{member_in};

use crate::gesture::{ArenaEvent, Gesture, Member};
use crate::moment::Decision;

// A member with its own decision so far, and whether it was dropped. It takes as much room as the member alone.
#[derive(Clone, Copy)]
pub struct Tracked {
    pub node: u64,
    pub gesture: Gesture,
    pub decision: Decision,
    pub dropped: bool,
}

impl Tracked {
    // The member that it is.
    pub fn member(&self) -> Member
        ensures { result ≡ member_in self.now }
    {
        Member {
            node: self.node,
            gesture: self.gesture,
        }
    }
}

// What an arena has come to.
#[derive(Clone, Copy)]
pub enum ArenaState {
    Open,
    Won(Tracked),
    Nobody,
}

// The events of one moment of one pointer.
#[derive(Clone, Copy)]
pub struct Met {
    pub decided: Option<ArenaEvent>,
    pub effect: Option<ArenaEvent>,
}
