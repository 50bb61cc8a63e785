// What one call does to all pointers.
ghost use Rattle.std.specs.Prelude.{◌≡◌, ◌<◌, ◌≤◌, ◌+◌, ◌*◌, ◌++◌, List, length, vec_len, vec_capacity};
ghost use Rattle.std.specs.Option.{option_to_list};
ghost use Rattle.fx_geom.specs.declared.scales.Scale.{Scale};
ghost use Rattle.gesture_arena.specs.Moment.{Pointer};
ghost use Rattle.gesture_arena.specs.Pointers.{met, after, events_met, events_of, loses};
ghost use Rattle.gesture_arena.specs.Stored.{Stands, AllStand, given_by};

use crate::call::Call;
use crate::gesture::{ArenaEvent, Member};
use crate::gone::Gone;
use crate::held::HeldPointer;
use crate::marks::{mark, no_marks, place_each, unmark};
use fx_geom::Scale;
use std::alloc::Global;
use std::mem;

// Adds an event, for which there is room.
pub fn put(events: &mut Vec<ArenaEvent>, event: Option<ArenaEvent>)
    requires { vec_len events.old < vec_capacity events.old }
    ensures items { events.new.items ≡ events.old.items ++ option_to_list event }
    ensures len { vec_len events.new ≤ vec_len events.old + 1 }
    ensures capacity { vec_capacity events.old ≤ vec_capacity events.new }
{
    if let Some(event) = event {
        let _ = events.push(event);
    }
}

// Gives one pointer its moment, if it has one.
pub fn meet_one(
    held: &mut HeldPointer,
    scale: &Scale,
    events: &mut Vec<ArenaEvent>,
    call: &Call<'_>,
)
    requires { vec_len events.old + 1 < vec_capacity events.old }
    ensures stands { (p : Pointer) → Stands scale.now held.old p → Stands scale.now held.new (met (given_by call.now p) p) }
    ensures events { (p : Pointer) → Stands scale.now held.old p → events.new.items ≡ events.old.items ++ events_met scale.now p (given_by call.now p) }
    ensures len { vec_len events.new ≤ vec_len events.old + 2 }
    ensures capacity { vec_capacity events.old ≤ vec_capacity events.new }
{
    match call.given(held) {
        Some(happening) => {
            let met = held.meet(scale, &happening);
            put(events, met.decided);
            put(events, met.effect);
        }
        None => {}
    }
}

// Gives each pointer its moment, in order of down.
pub fn meet_each(
    held: &mut [HeldPointer],
    scale: &Scale,
    events: &mut Vec<ArenaEvent>,
    call: &Call<'_>,
)
    requires { vec_len events.old + 2 * length held.old ≤ vec_capacity events.old }
    ensures stands { (ps : List Pointer) → AllStand scale.now held.old ps → AllStand scale.now held.new (after (given_by call.now) ps) }
    ensures events { (ps : List Pointer) → AllStand scale.now held.old ps → events.new.items ≡ events.old.items ++ events_of scale.now (given_by call.now) ps }
    ensures capacity { vec_capacity events.old ≤ vec_capacity events.new }
{
    for h in held.iter_mut() {
        meet_one(h, scale, events, call);
    }
}

// Gives one pointer the moment at which members are gone, where one of its own is among them.
fn drop_one(
    alloc: Global,
    held: &mut HeldPointer,
    scale: &Scale,
    events: &mut Vec<ArenaEvent>,
    gone: &[Member],
)
    requires { vec_len events.old + 1 < vec_capacity events.old }
    ensures stands { (p : Pointer) → Stands scale.now held.old p → Stands scale.now held.new (met (loses gone.now p) p) }
    ensures events { (p : Pointer) → Stands scale.now held.old p → events.new.items ≡ events.old.items ++ events_met scale.now p (loses gone.now p) }
    ensures len { vec_len events.new ≤ vec_len events.old + 2 }
    ensures capacity { vec_capacity events.old ≤ vec_capacity events.new }
{
    let mut marks = mem::replace(&mut held.marks, no_marks(alloc));
    // A member without a place is sought one by one.
    if !gone.is_empty() {
        let _ = place_each(&mut marks, held.members.as_slice());
    }
    mark(&mut marks, gone);
    let call = Call::Dropped(Gone {
        members: gone,
        marks: &marks,
    });
    meet_one(held, scale, events, &call);
    unmark(&mut marks, gone);
    held.marks = marks;
}

// Gives each pointer the moment at which members are gone, in order of down.
pub fn drop_each(
    alloc: Global,
    held: &mut [HeldPointer],
    scale: &Scale,
    events: &mut Vec<ArenaEvent>,
    gone: &[Member],
)
    requires { vec_len events.old + 2 * length held.old ≤ vec_capacity events.old }
    ensures stands { (ps : List Pointer) → AllStand scale.now held.old ps → AllStand scale.now held.new (after (loses gone.now) ps) }
    ensures events { (ps : List Pointer) → AllStand scale.now held.old ps → events.new.items ≡ events.old.items ++ events_of scale.now (loses gone.now) ps }
    ensures capacity { vec_capacity events.old ≤ vec_capacity events.new }
{
    for h in held.iter_mut() {
        drop_one(alloc, h, scale, events, gone);
    }
}
