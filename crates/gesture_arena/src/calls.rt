ghost use Rattle.std.specs.Prelude.{◌≡◌, ◌↔◌, ◌<◌, ◌≤◌, ◌+◌, ◌++◌, [], ◌∷◌, true, false, ℕ, List, length, map, slice_get, Option, None, IsNone, IsErr, IfOk, OnOk, OnErr, IsTrue, drop};
ghost use Rattle.std.specs.List.{list_any};
ghost use Rattle.fx_geom.specs.declared.scales.Scale.{Scale};
ghost use Rattle.fx_geom.specs.declared.shapes.Offset.{Offset};
ghost use Rattle.gesture_arena.specs.Moment.{Pointer, move, up, cancel, down};
ghost use Rattle.gesture_arena.specs.Effects.{events_at};
ghost use Rattle.gesture_arena.specs.Pointers.{one_gets, comes_due, loses, after, events_of, without, is_down, touched, put_down, down_events, members_of, IsInRange};
ghost use Rattle.gesture_arena.specs.Stored.{Stands, AllStand, offset_of, given_by, number_is, fresh, others};
ghost use Rattle.gesture_arena.specs.StandsFor.{StandsFor, events_left, held_members};

use crate::answers::Answers;
use crate::call::Call;
use crate::gesture::{ArenaEvent, DownFault, Member, PointerIsUp};
use crate::held::HeldPointer;
use crate::marks::no_marks;
use crate::meeting::{drop_each, meet_each, put};
use crate::moment::{Decision, Happening};
use crate::place::PointerPlace;
use crate::pointers::Pointers;
use crate::tracked::{ArenaState, Tracked};
use fx_geom::{Offset, Scale};
use std::alloc::{AllocError, Global};

/// How many pointers may be down at once.
pub const POINTERS_MAX: usize = 32;

// How many events one call can have.
const EVENTS_MAX: usize = 64;

// The place of a point in range.
fn place_of(at: Offset) -> PointerPlace
    requires { IsInRange at }
    ensures { offset_of result ≡ at }
{
    PointerPlace { x: at.x, y: at.y }
}

// A member to which nothing has happened.
fn fresh(member: Member) -> Tracked
    ensures { result ≡ fresh member }
{
    Tracked {
        node: member.node,
        gesture: member.gesture,
        decision: Decision::Waits,
        dropped: false,
    }
}

// The members of a pointer to which nothing has happened.
fn fresh_members(alloc: Global, members: &[Member]) -> Result<Vec<Tracked>, AllocError>
    ensures { IfOk result (λ v. v.items ≡ map fresh members.now) }
{
    members.iter().map(|m| fresh(*m)).collect(alloc)
}

impl HeldPointer {
    // A pointer to which nothing has happened yet.
    fn touched(
        alloc: Global,
        pointer: u32,
        at: PointerPlace,
        now: u64,
        members: &[Member],
    ) -> Result<HeldPointer, AllocError>
        ensures { (s : Scale) → IfOk result (λ h. Stands s h (touched pointer (offset_of at) now members.now)) }
    {
        let tracked = fresh_members(alloc, members)?;
        let marks = no_marks(alloc);
        Ok(HeldPointer {
            number: pointer,
            from: at,
            last: at,
            began: now,
            is_due: false,
            arena: ArenaState::Open,
            answers: Answers::waiting(),
            members: tracked,
            marks,
        })
    }
}

// Lets the pointer with this number go.
fn let_go(held: &mut Vec<HeldPointer>, pointer: u32)
    ensures items { held.new.items ≡ others pointer held.old.items }
    ensures fewer { length held.new.items ≤ length held.old.items }
{
    held.retain(|h| h.number != pointer);
}

// Adds a pointer.
fn add(held: &mut Vec<HeldPointer>, one: HeldPointer) -> Result<(), AllocError>
    ensures ok { OnOk result (held.new.items ≡ held.old.items ++ one ∷ []) }
    ensures err { OnErr result (held.new.items ≡ held.old.items) }
{
    held.push(one).map_err(AllocError::from)
}

// Whether a pointer with this number is held.
fn is_held(held: &[HeldPointer], pointer: u32) -> bool
    ensures { result ≡ list_any (number_is pointer) held.now }
{
    held.iter().any(|h| h.number == pointer)
}

impl Pointers {
    /// No pointer is down. The distances that gestures go by are those of the scale.
    pub fn new(alloc: Global, scale: Scale) -> Result<Pointers, AllocError>
        ensures stands { IfOk result (λ v. StandsFor v scale []) }
        ensures events { IfOk result (λ v. events_left v ≡ []) }
    {
        let events = Vec::with_capacity(alloc, EVENTS_MAX)?;
        Ok(Pointers {
            alloc,
            scale,
            held: Vec::new(alloc),
            events,
        })
    }

    /// Whether a pointer with this number is down.
    pub fn is_down(&self, pointer: u32) -> bool
        ensures { (s : Scale) (ps : List Pointer) → StandsFor self.now s ps → result ≡ is_down pointer ps }
    {
        is_held(self.held.as_slice(), pointer)
    }

    /// Whether as many pointers are down as may be, [`POINTERS_MAX`].
    pub fn is_full(&self) -> bool
        ensures { (s : Scale) (ps : List Pointer) → StandsFor self.now s ps → IsTrue result ↔ POINTERS_MAX ≤ length ps }
    {
        self.holds_most()
    }

    // The same, by what is held.
    fn holds_most(&self) -> bool
        ensures value { (s : Scale) (ps : List Pointer) → StandsFor self.now s ps → IsTrue result ↔ POINTERS_MAX ≤ length ps }
        ensures room { result ≡ false → length self.now.held.items < 32 }
    {
        self.held.len() >= POINTERS_MAX
    }

    // Gives each pointer the moment that a call has for it.
    fn meet(&mut self, call: &Call<'_>)
        requires { events_left self.old ≡ [] }
        ensures stands { (s : Scale) (ps : List Pointer) → StandsFor self.old s ps → StandsFor self.new s (after (given_by call.now) ps) }
        ensures events { (s : Scale) (ps : List Pointer) → StandsFor self.old s ps → events_left self.new ≡ events_of s (given_by call.now) ps }
    {
        meet_each(
            self.held.as_mut_slice(),
            &self.scale,
            &mut self.events,
            call,
        );
    }

    // Lets the pointer with this number go.
    fn remove(&mut self, pointer: u32)
        ensures stands { (s : Scale) (ps : List Pointer) → StandsFor self.old s ps → StandsFor self.new s (without pointer ps) }
        ensures events { events_left self.new ≡ events_left self.old }
    {
        let_go(&mut self.held, pointer);
    }

    /// A pointer goes down at a point, in u, each side of which lies within -2^30..=2^30, at a time in milliseconds, with
    /// its members in order. `PointerIsDown` comes exactly where a pointer with this number is down already, else
    /// `TooManyPointers` exactly where [`POINTERS_MAX`] are down; after each refusal all is as before. No event may be left.
    pub fn down(
        &mut self,
        pointer: u32,
        at: Offset,
        now: u64,
        members: &[Member],
    ) -> Result<(), DownFault>
        requires in_range { IsInRange at }
        requires none_left { events_left self.old ≡ [] }
        ensures stands { (s : Scale) (ps : List Pointer) → StandsFor self.old s ps
            → OnOk result (StandsFor self.new s (ps ++ put_down pointer at now members.now ∷ [])) }
        ensures events { (s : Scale) (ps : List Pointer) → StandsFor self.old s ps
            → OnOk result (events_left self.new ≡ down_events s pointer at now members.now) }

        ensures is_down { (s : Scale) (ps : List Pointer) → StandsFor self.old s ps
            → result ≡ Err DownFault.PointerIsDown ↔ is_down pointer ps ≡ true }
        ensures too_many { (s : Scale) (ps : List Pointer) → StandsFor self.old s ps
            → result ≡ Err DownFault.TooManyPointers ↔ (is_down pointer ps ≡ false × POINTERS_MAX ≤ length ps) }
        ensures as_before { (s : Scale) (ps : List Pointer) → StandsFor self.old s ps
            → OnErr result (StandsFor self.new s ps × events_left self.new ≡ []) }
        ensures no_events { OnErr result (events_left self.new ≡ []) }
    {
        if self.is_down(pointer) {
            return Err(DownFault::PointerIsDown);
        }
        if self.holds_most() {
            return Err(DownFault::TooManyPointers);
        }
        match self.put_down(pointer, place_of(at), now, members) {
            Ok(()) => Ok(()),
            Err(AllocError) => Err(DownFault::OutOfMemory),
        }
    }

    // Puts a pointer down, for which there is room.
    fn put_down(
        &mut self,
        pointer: u32,
        at: PointerPlace,
        now: u64,
        members: &[Member],
    ) -> Result<(), AllocError>
        requires room { length self.old.held.items < 32 }
        requires none_left { events_left self.old ≡ [] }
        ensures stands { (s : Scale) (ps : List Pointer) → StandsFor self.old s ps
            → OnOk result (StandsFor self.new s (ps ++ put_down pointer (offset_of at) now members.now ∷ [])) }
        ensures events { (s : Scale) (ps : List Pointer) → StandsFor self.old s ps
            → OnOk result (events_left self.new ≡ down_events s pointer (offset_of at) now members.now) }
        ensures as_before { (s : Scale) (ps : List Pointer) → StandsFor self.old s ps → OnErr result (StandsFor self.new s ps) }
        ensures no_events { OnErr result (events_left self.new ≡ []) }
    {
        let mut held = HeldPointer::touched(self.alloc, pointer, at, now, members)?;
        let met = held.meet(&self.scale, &Happening::Down);
        add(&mut self.held, held)?;
        put(&mut self.events, met.decided);
        put(&mut self.events, met.effect);
        Ok(())
    }

    /// The pointer moves to a point, in u, each side of which lies within -2^30..=2^30. `PointerIsUp` comes exactly where no
    /// pointer with this number is down, and then nothing changes. No event may be left.
    pub fn moved(&mut self, pointer: u32, at: Offset) -> Result<(), PointerIsUp>
        requires in_range { IsInRange at }
        requires none_left { events_left self.old ≡ [] }
        ensures stands { (s : Scale) (ps : List Pointer) → StandsFor self.old s ps
            → OnOk result (StandsFor self.new s (after (one_gets pointer (move at)) ps)) }
        ensures events { (s : Scale) (ps : List Pointer) → StandsFor self.old s ps
            → OnOk result (events_left self.new ≡ events_of s (one_gets pointer (move at)) ps) }

        ensures is_up { (s : Scale) (ps : List Pointer) → StandsFor self.old s ps → IsErr result ↔ is_down pointer ps ≡ false }
        ensures as_before { OnErr result (self.new ≡ self.old) }
    {
        if !self.is_down(pointer) {
            return Err(PointerIsUp);
        }
        self.meet(&Call::Moved(pointer, place_of(at)));
        Ok(())
    }

    /// The pointer goes up, and is down no longer. `PointerIsUp` comes exactly where no pointer with this number is down, and
    /// then nothing changes. No event may be left.
    pub fn up(&mut self, pointer: u32) -> Result<(), PointerIsUp>
        requires { events_left self.old ≡ [] }
        ensures stands { (s : Scale) (ps : List Pointer) → StandsFor self.old s ps
            → OnOk result (StandsFor self.new s (without pointer ps)) }
        ensures events { (s : Scale) (ps : List Pointer) → StandsFor self.old s ps
            → OnOk result (events_left self.new ≡ events_of s (one_gets pointer up) ps) }

        ensures is_up { (s : Scale) (ps : List Pointer) → StandsFor self.old s ps → IsErr result ↔ is_down pointer ps ≡ false }
        ensures as_before { OnErr result (self.new ≡ self.old) }
    {
        if !self.is_down(pointer) {
            return Err(PointerIsUp);
        }
        self.meet(&Call::Up(pointer));
        self.remove(pointer);
        Ok(())
    }

    /// The pointer is cancelled, and is down no longer. `PointerIsUp` comes exactly where no pointer with this number is down,
    /// and then nothing changes. No event may be left.
    pub fn cancel(&mut self, pointer: u32) -> Result<(), PointerIsUp>
        requires { events_left self.old ≡ [] }
        ensures stands { (s : Scale) (ps : List Pointer) → StandsFor self.old s ps
            → OnOk result (StandsFor self.new s (without pointer ps)) }
        ensures events { (s : Scale) (ps : List Pointer) → StandsFor self.old s ps
            → OnOk result (events_left self.new ≡ events_of s (one_gets pointer cancel) ps) }

        ensures is_up { (s : Scale) (ps : List Pointer) → StandsFor self.old s ps → IsErr result ↔ is_down pointer ps ≡ false }
        ensures as_before { OnErr result (self.new ≡ self.old) }
    {
        if !self.is_down(pointer) {
            return Err(PointerIsUp);
        }
        self.meet(&Call::Cancel(pointer));
        self.remove(pointer);
        Ok(())
    }

    /// The time is now this, in milliseconds: the deadline of each pointer that went down 500 ms before or earlier comes, if it
    /// did not come before. Their events stand in order of down, which is that of the deadlines where no time was less than
    /// an earlier one. No event may be left.
    pub fn advance(&mut self, now: u64)
        requires { events_left self.old ≡ [] }
        ensures stands { (s : Scale) (ps : List Pointer) → StandsFor self.old s ps → StandsFor self.new s (after (comes_due now) ps) }
        ensures events { (s : Scale) (ps : List Pointer) → StandsFor self.old s ps → events_left self.new ≡ events_of s (comes_due now) ps }
    {
        self.meet(&Call::Advance(now));
    }

    /// These members are gone with a frame. Their pointers' events stand in order of down. No event may be left. Each of
    /// them is sought by its hash among the members of each pointer that is down.
    pub fn dropped(&mut self, gone: &[Member])
        requires { events_left self.old ≡ [] }
        ensures stands { (s : Scale) (ps : List Pointer) → StandsFor self.old s ps → StandsFor self.new s (after (loses gone.now) ps) }
        ensures events { (s : Scale) (ps : List Pointer) → StandsFor self.old s ps → events_left self.new ≡ events_of s (loses gone.now) ps }
    {
        drop_each(
            self.alloc,
            self.held.as_mut_slice(),
            &self.scale,
            &mut self.events,
            gone,
        );
    }

    /// Takes the first event that is left; `None` comes exactly where none is left.
    pub fn next_event(&mut self) -> Option<ArenaEvent>
        ensures first { result ≡ slice_get (events_left self.old) 0 }
        ensures rest { events_left self.new ≡ drop 1 (events_left self.old) }
        ensures none { IsNone result ↔ events_left self.old ≡ [] }
        ensures stands { (s : Scale) (ps : List Pointer) → StandsFor self.old s ps → StandsFor self.new s ps }
    {
        if self.events.is_empty() {
            return None;
        }
        Some(self.events.remove(0))
    }

    /// The member with this index among those of all pointers that are down, in order of down, one pointer's after another's;
    /// `None` comes exactly past the last.
    pub fn member(&self, index: usize) -> Option<Member>
        ensures { (s : Scale) (ps : List Pointer) → StandsFor self.now s ps → result ≡ slice_get (members_of ps) index }
    {
        member_at(self.held.as_slice(), index)
    }
}

// The member with this index among those of all pointers.
fn member_at(held: &[HeldPointer], index: usize) -> Option<Member>
    ensures { result ≡ slice_get (held_members held.now) index }
{
    let mut left = index;
    for h in held {
        let count = h.members.len();
        if left < count {
            return Some(h.members[left].member());
        }
        left -= count;
    }
    None
}
