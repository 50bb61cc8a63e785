// The members of pointers by their index. What comes of them is in the case files.
ghost use Rattle.std.specs.Prelude.{◌≡◌, [], OnOk};
ghost use Rattle.gesture_arena.specs.StandsFor.{events_left};

use crate::compare::{expect, expect_at};
use fx_geom::{Offset, Scale};
use gesture_arena::{Gesture, Member, Pointers};
use std::process::Abort;
use std::test::Fail;

const TAP: Member = Member {
    node: 1,
    gesture: Gesture::Tap,
};

const LONG: Member = Member {
    node: 1,
    gesture: Gesture::Long,
};

// Puts a pointer down over a tap and a long press, of which nothing comes yet.
fn put_down(pointers: &mut Pointers, number: u32) -> Result<(), Fail>
    requires { events_left pointers.old ≡ [] }
    ensures { OnOk result (events_left pointers.new ≡ []) }
{
    pointers.down(number, Offset { x: 0, y: 0 }, 0, &[TAP, LONG])?;
    match pointers.next_event() {
        None => Ok(()),
        Some(_) => Err("an event".into()),
    }
}

// Of 32 pointers with two members each.
const MEMBERS: [(usize, Option<Member>); 4] = [
    (0, Some(TAP)),
    (1, Some(LONG)),
    (63, Some(LONG)),
    (64, None),
];

fn check_members(rt: &impl Abort, pointers: &Pointers) {
    for (index, member) in MEMBERS {
        expect_at(rt, pointers.member(index), member, &index);
    }
}

#[test]
fn members_stand_by_their_pointers(rt: HostRuntime) -> Result<(), Fail> {
    let mut pointers = Pointers::new(rt.alloc(), Scale::standard())?;
    for number in 0..32 {
        put_down(&mut pointers, number)?;
    }
    check_members(&rt, &pointers);
    Ok(())
}
