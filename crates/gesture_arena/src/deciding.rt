// What each member decides for itself at a moment.
ghost use Rattle.std.specs.Prelude.{◌≡◌, [], ◌∷◌, false, if◌then◌else◌, ◌<◌, ◌≤◌, ◌^◌, ◌*◌, map, length, unsigned_abs};
ghost use Rattle.std.specs.List.{list_any};
ghost use Rattle.gesture_arena.specs.Moment.{member_eq, is_among, gesture_eq, drops, point_after, is_up, is_due, move};
ghost use Rattle.gesture_arena.specs.Own.{apart, is_beyond, gesture_says, says, lives, accepts};
ghost use Rattle.gesture_arena.specs.Settled.{has_accepted};
ghost use Rattle.gesture_arena.specs.Stored.{offset_of, moment_of, stepped, given_stepped};
ghost use Rattle.gesture_arena.specs.Answering.{is_drop, answer, answered};

use crate::answers::Answers;
use crate::gesture::{Gesture, Member};
use crate::moment::{Decision, Happening};
use crate::place::PointerPlace;
use crate::tracked::Tracked;
use fx_geom::Scale;

// Whether two places are further apart than this, in a straight line.
fn is_beyond(far: u64, from: PointerPlace, at: PointerPlace) -> bool
    ensures { result ≡ is_beyond far (offset_of from) (offset_of at) }
{
    let across = at.x.abs_diff(from.x) as u128;
    let down = at.y.abs_diff(from.y) as u128;
    let far = far as u128;
    far * far < across * across + down * down
}

// What a gesture makes of a move.
fn says_of_move(scale: &Scale, from: PointerPlace, gesture: Gesture, at: PointerPlace) -> Decision
    ensures { result ≡ gesture_says scale.now (offset_of from) gesture (move (offset_of at)) }
{
    match gesture {
        Gesture::Tap | Gesture::Long => {
            if is_beyond(scale.slop, from, at) {
                Decision::Rejects
            } else {
                Decision::Waits
            }
        }
        Gesture::Vertical => accepts_if(scale.slop < at.y.abs_diff(from.y)),
        Gesture::Horizontal => accepts_if(scale.slop < at.x.abs_diff(from.x)),
        Gesture::Pan => accepts_if(is_beyond(scale.pan, from, at)),
    }
}

fn accepts_if(does: bool) -> Decision
    ensures { result ≡ (if does then Decision.Accepts else Decision.Waits) }
{
    if does {
        Decision::Accepts
    } else {
        Decision::Waits
    }
}

// What a gesture makes of what happens, but for a drop.
pub fn gesture_says(
    scale: &Scale,
    from: PointerPlace,
    gesture: Gesture,
    happening: &Happening<'_>,
) -> Decision
    ensures { result ≡ answer scale.now (offset_of from) gesture (moment_of happening.now) }
{
    match happening {
        Happening::Down | Happening::Dropped(_) => Decision::Waits,
        Happening::Move(at) => says_of_move(scale, from, gesture, *at),
        Happening::Up => match gesture {
            Gesture::Tap => Decision::Waits,
            Gesture::Long | Gesture::Vertical | Gesture::Horizontal | Gesture::Pan => {
                Decision::Rejects
            }
        },
        Happening::Cancel => Decision::Rejects,
        Happening::Due => match gesture {
            Gesture::Long => Decision::Accepts,
            Gesture::Tap | Gesture::Vertical | Gesture::Horizontal | Gesture::Pan => {
                Decision::Waits
            }
        },
    }
}

// What a member makes of what happens.
fn says(scale: &Scale, from: PointerPlace, member: Member, happening: &Happening<'_>) -> Decision
    ensures { result ≡ says scale.now (offset_of from) member (moment_of happening.now) }
{
    match happening {
        Happening::Dropped(gone) => {
            if gone.has(member) {
                Decision::Rejects
            } else {
                Decision::Waits
            }
        }
        _ => gesture_says(scale, from, member.gesture, happening),
    }
}

impl Decision {
    // Whether it is no rejection.
    pub fn lives(self) -> bool
        ensures { result ≡ lives self }
    {
        match self {
            Decision::Waits | Decision::Accepts => true,
            Decision::Rejects => false,
        }
    }

    // Whether it is an acceptance.
    pub fn accepts(self) -> bool
        ensures { result ≡ accepts self }
    {
        match self {
            Decision::Accepts => true,
            Decision::Waits | Decision::Rejects => false,
        }
    }
}

impl Happening<'_> {
    // Whether it drops a member.
    fn drops(&self, member: Member) -> bool
        ensures { result ≡ drops (moment_of self.now) member }
    {
        match self {
            Happening::Dropped(gone) => gone.has(member),
            _ => false,
        }
    }

    // Whether it is a drop.
    fn is_drop(&self) -> bool
        ensures { result ≡ is_drop (moment_of self.now) }
    {
        match self {
            Happening::Dropped(_) => true,
            _ => false,
        }
    }

    // Whether the pointer goes up.
    pub fn is_up(&self) -> bool
        ensures { result ≡ is_up (moment_of self.now) }
    {
        match self {
            Happening::Up => true,
            _ => false,
        }
    }

    // Where the pointer is afterwards.
    pub fn place_after(&self, at: PointerPlace) -> PointerPlace
        ensures { offset_of result ≡ point_after (offset_of at) (moment_of self.now ∷ []) }
    {
        match self {
            Happening::Move(to) => *to,
            _ => at,
        }
    }

    // Whether the deadline has come.
    pub fn is_due(&self) -> bool
        ensures { result ≡ is_due (moment_of self.now) }
    {
        match self {
            Happening::Due => true,
            _ => false,
        }
    }
}

impl Tracked {
    // The member with what it makes of what happens.
    pub fn after(self, scale: &Scale, from: PointerPlace, happening: &Happening<'_>) -> Tracked
        ensures { result ≡ stepped scale.now (offset_of from) (moment_of happening.now) self }
    {
        let decision = match self.decision {
            Decision::Waits => says(scale, from, self.member(), happening),
            Decision::Rejects => Decision::Rejects,
            Decision::Accepts => Decision::Accepts,
        };
        Tracked {
            node: self.node,
            gesture: self.gesture,
            decision,
            dropped: self.dropped || happening.drops(self.member()),
        }
    }
}

// Gives each member what its gesture has decided, and lets it make what it does of what happens.
fn step_each(
    members: &mut [Tracked],
    answers: &Answers,
    scale: &Scale,
    from: PointerPlace,
    happening: &Happening<'_>,
)
    ensures { members.new ≡ map (given_stepped answers.now scale.now (offset_of from) (moment_of happening.now)) members.old }
{
    for t in members.iter_mut() {
        *t = answers.given_to(*t).after(scale, from, happening);
    }
}

// Lets each member make what it does of what happens. Where none is dropped, what it makes depends on its gesture alone, and is
// given to it later.
pub fn step_all(
    members: &mut [Tracked],
    answers: &mut Answers,
    scale: &Scale,
    from: PointerPlace,
    happening: &Happening<'_>,
)
    ensures steps { map (answered answers.new) members.new ≡ map (stepped scale.now (offset_of from) (moment_of happening.now)) (map (answered answers.old) members.old) }
    ensures quiet { list_any has_accepted (map (answered answers.old) members.old) ≡ false → list_any has_accepted members.new ≡ false }
{
    if happening.is_drop() {
        step_each(members, answers, scale, from, happening);
        *answers = Answers::waiting();
    } else {
        *answers = answers.then(&Answers::of(scale, from, happening));
    }
}
