// How the arena of one pointer goes on at a moment, and what comes out of it.
ghost use Rattle.std.specs.Prelude.{◌≡◌, ◌-ℤ◌, ◌<◌, ◌≤◌, Bool, true, false, map, length, Option, Some, List, [], count_by, if◌then◌else◌};
ghost use Rattle.std.specs.List.{list_any, find};
ghost use Rattle.gesture_arena.specs.Moment.{Pointer, is_up, move};
ghost use Rattle.gesture_arena.specs.Effects.{told, goes_on, drags, acts, drag_x, drag_y, events_at};
ghost use Rattle.gesture_arena.specs.Answering.{answered};
ghost use Rattle.gesture_arena.specs.Settled.{member_in, has_accepted, is_alive, open_after, is_open};
ghost use Rattle.gesture_arena.specs.Stored.{offset_of, moment_of, arena_after, effect_in, arena_told, decided_in, StepsTo};

use crate::answers::Answers;
use crate::deciding::step_all;
use crate::gesture::{ArenaEvent, Gesture, Member};
use crate::held::HeldPointer;
use crate::moment::{Decision, Happening};
use crate::place::PointerPlace;
use crate::tracked::{ArenaState, Met, Tracked};
use fx_geom::Scale;

// What an open arena comes to, where its members were given what their gestures have decided: the first member that has accepted
// wins; where none has, the first that lives, where it is the only one or the pointer goes up.
fn settle_each(members: &[Tracked], answers: &Answers, goes_up: bool) -> ArenaState
    ensures { result ≡ open_after (map (answered answers.now) members.now) goes_up }
{
    let mut first = None;
    let mut several = false;
    for t in members {
        let given = answers.given_to(*t);
        match given.decision {
            Decision::Accepts => return ArenaState::Won(given),
            Decision::Rejects => {}
            Decision::Waits => {
                several = first.is_some();
                if !several {
                    first = Some(given);
                }
            }
        }
    }
    match first {
        None => ArenaState::Nobody,
        Some(t) => {
            if several && !goes_up {
                ArenaState::Open
            } else {
                ArenaState::Won(t)
            }
        }
    }
}

// The same where none has accepted: nothing is to be known of those past the second that lives.
fn settle_waiting(members: &[Tracked], answers: &Answers, goes_up: bool) -> ArenaState
    requires { list_any has_accepted (map (answered answers.now) members.now) ≡ false }
    ensures { result ≡ open_after (map (answered answers.now) members.now) goes_up }
{
    let mut first = None;
    for t in members {
        let given = answers.given_to(*t);
        if given.decision.lives() {
            match first {
                None => first = Some(given),
                Some(alive) => return won_if(goes_up, alive),
            }
        }
    }
    match first {
        None => ArenaState::Nobody,
        Some(t) => ArenaState::Won(t),
    }
}

fn won_if(does: bool, t: Tracked) -> ArenaState
    ensures { result ≡ (if does then ArenaState.Won t else ArenaState.Open) }
{
    if does {
        ArenaState::Won(t)
    } else {
        ArenaState::Open
    }
}

// What an open arena comes to, where no member had accepted before its gesture's answer.
fn settle(members: &[Tracked], answers: &Answers, goes_up: bool) -> ArenaState
    requires { list_any has_accepted members.now ≡ false }
    ensures { result ≡ open_after (map (answered answers.now) members.now) goes_up }
{
    if answers.accept() {
        settle_each(members, answers, goes_up)
    } else {
        settle_waiting(members, answers, goes_up)
    }
}

impl ArenaState {
    // The arena after a moment, where the members have made of it what they do, and what their gestures did is still to be given
    // to them.
    fn after(
        self,
        members: &[Tracked],
        answers: &Answers,
        scale: &Scale,
        from: PointerPlace,
        happening: &Happening<'_>,
    ) -> ArenaState
        requires { is_open self ≡ true → list_any has_accepted members.now ≡ false }
        ensures { result ≡ arena_after scale.now (offset_of from) (moment_of happening.now) (is_up (moment_of happening.now)) (map (answered answers.now) members.now) self }
    {
        match self {
            ArenaState::Open => settle(members, answers, happening.is_up()),
            ArenaState::Won(t) => ArenaState::Won(t.after(scale, from, happening)),
            ArenaState::Nobody => ArenaState::Nobody,
        }
    }

    fn is_open(self) -> bool
        ensures { result ≡ is_open self }
    {
        match self {
            ArenaState::Open => true,
            ArenaState::Won(_) | ArenaState::Nobody => false,
        }
    }

    // What is told of the arena where this decides it.
    fn told(self, number: u32) -> Option<ArenaEvent>
        ensures { result ≡ arena_told number self }
    {
        match self {
            ArenaState::Open => None,
            ArenaState::Won(t) => Some(ArenaEvent::Won {
                pointer: number,
                node: t.node,
                gesture: t.gesture,
            }),
            ArenaState::Nobody => Some(ArenaEvent::Nobody { pointer: number }),
        }
    }

    // What the winner does at a moment, where its pointer was at a place before.
    fn effect(self, is_new: bool, at: PointerPlace, happening: &Happening<'_>) -> Option<ArenaEvent>
        ensures { result ≡ effect_in is_new self (offset_of at) (moment_of happening.now) }
    {
        match self {
            ArenaState::Won(t) => {
                if t.dropped {
                    None
                } else {
                    acts(t, is_new, at, happening)
                }
            }
            ArenaState::Open | ArenaState::Nobody => None,
        }
    }
}

// What a winner does that was not dropped.
fn acts(t: Tracked, is_new: bool, at: PointerPlace, happening: &Happening<'_>) -> Option<ArenaEvent>
    ensures { result ≡ acts t.gesture (is_alive t) is_new (member_in t) (offset_of at) (moment_of happening.now) }
{
    let node = t.node;
    match t.gesture {
        Gesture::Tap => {
            if happening.is_up() && t.decision.lives() {
                Some(ArenaEvent::Tap { node })
            } else {
                None
            }
        }
        Gesture::Long => {
            if happening.is_due() && t.decision.lives() {
                Some(ArenaEvent::Long { node })
            } else {
                None
            }
        }
        Gesture::Vertical | Gesture::Horizontal | Gesture::Pan => {
            drags(is_new, t.member(), at, happening)
        }
    }
}

// What a drag does that wins now or has won before.
fn drags(
    is_new: bool,
    member: Member,
    at: PointerPlace,
    happening: &Happening<'_>,
) -> Option<ArenaEvent>
    ensures { result ≡ drags is_new member (offset_of at) (moment_of happening.now) }
{
    let node = member.node;
    let gesture = member.gesture;
    if is_new {
        return Some(ArenaEvent::Start { node, gesture });
    }
    match happening {
        Happening::Move(to) => Some(update(member, at, *to)),
        Happening::Up | Happening::Cancel => Some(ArenaEvent::End { node, gesture }),
        Happening::Down | Happening::Due | Happening::Dropped(_) => None,
    }
}

// How far it is from one place to another, to the right and down.
fn across(at: PointerPlace, to: PointerPlace) -> i64
    ensures { result ≡ to.x -ℤ at.x }
{
    to.x - at.x
}

fn along(at: PointerPlace, to: PointerPlace) -> i64
    ensures { result ≡ to.y -ℤ at.y }
{
    to.y - at.y
}

// How far a drag goes on to the side, and up or down.
fn drag_x(gesture: Gesture, at: PointerPlace, to: PointerPlace) -> i64
    ensures { result ≡ drag_x gesture (to.x -ℤ at.x) }
{
    match gesture {
        Gesture::Vertical => 0,
        Gesture::Tap | Gesture::Long | Gesture::Horizontal | Gesture::Pan => across(at, to),
    }
}

fn drag_y(gesture: Gesture, at: PointerPlace, to: PointerPlace) -> i64
    ensures { result ≡ drag_y gesture (to.y -ℤ at.y) }
{
    match gesture {
        Gesture::Horizontal => 0,
        Gesture::Tap | Gesture::Long | Gesture::Vertical | Gesture::Pan => along(at, to),
    }
}

// How a drag goes on from one place to another.
fn update(member: Member, at: PointerPlace, to: PointerPlace) -> ArenaEvent
    ensures { Some result ≡ goes_on member (offset_of at) (move (offset_of to)) }
{
    ArenaEvent::Update {
        node: member.node,
        gesture: member.gesture,
        dx: drag_x(member.gesture, at, to),
        dy: drag_y(member.gesture, at, to),
    }
}

impl HeldPointer {
    /// Lets something happen to the pointer: what comes out of its arena.
    pub fn meet(&mut self, scale: &Scale, happening: &Happening<'_>) -> Met
        ensures steps { StepsTo scale.now (moment_of happening.now) self.old self.new }
        ensures decided { result.decided ≡ decided_in self.old.number self.old.members.items self.old.arena self.new.arena }
        ensures effect { result.effect ≡ effect_in (is_open self.old.arena) self.new.arena (offset_of self.old.last) (moment_of happening.now) }
    {
        let before = self.arena;
        let last = self.last;
        step_all(
            self.members.as_mut_slice(),
            &mut self.answers,
            scale,
            self.from,
            happening,
        );
        self.arena = before.after(
            self.members.as_slice(),
            &self.answers,
            scale,
            self.from,
            happening,
        );
        self.last = happening.place_after(last);
        self.is_due = self.is_due || happening.is_due();
        Met {
            decided: decided(self.number, self.members.as_slice(), before, self.arena),
            effect: self.arena.effect(before.is_open(), last, happening),
        }
    }
}

// What is told of an arena that was the first and is the second.
fn decided(
    number: u32,
    members: &[Tracked],
    before: ArenaState,
    after: ArenaState,
) -> Option<ArenaEvent>
    ensures { result ≡ decided_in number members.now before after }
{
    if members.is_empty() || !before.is_open() {
        return None;
    }
    after.told(number)
}
