// What each gesture has decided at moments at which no member was dropped.
ghost use Rattle.std.specs.Prelude.{◌≡◌};
ghost use Rattle.gesture_arena.specs.Answering.{answer, answer_in, answered, waiting, accepts_some};
ghost use Rattle.gesture_arena.specs.Settled.{decision_after};
ghost use Rattle.gesture_arena.specs.Stored.{offset_of, moment_of};
ghost use Rattle.gesture_arena.specs.declared.gesture.Gesture.{Gesture as AnyGesture};

use crate::deciding::gesture_says;
use crate::gesture::Gesture;
use crate::moment::{Decision, Happening};
use crate::place::PointerPlace;
use crate::tracked::Tracked;
use fx_geom::Scale;

#[derive(Clone, Copy)]
pub struct Answers {
    pub tap: Decision,
    pub long: Decision,
    pub vertical: Decision,
    pub horizontal: Decision,
    pub pan: Decision,
}

impl Answers {
    // None has decided anything.
    pub fn waiting() -> Answers
        ensures { result ≡ waiting }
    {
        Answers {
            tap: Decision::Waits,
            long: Decision::Waits,
            vertical: Decision::Waits,
            horizontal: Decision::Waits,
            pan: Decision::Waits,
        }
    }

    // What each makes of a moment.
    pub fn of(scale: &Scale, from: PointerPlace, happening: &Happening<'_>) -> Answers
        ensures { (g : AnyGesture) → answer_in result g ≡ answer scale.now (offset_of from) g (moment_of happening.now) }
    {
        Answers {
            tap: gesture_says(scale, from, Gesture::Tap, happening),
            long: gesture_says(scale, from, Gesture::Long, happening),
            vertical: gesture_says(scale, from, Gesture::Vertical, happening),
            horizontal: gesture_says(scale, from, Gesture::Horizontal, happening),
            pan: gesture_says(scale, from, Gesture::Pan, happening),
        }
    }

    // What each has decided with a moment more, of which they make this.
    pub fn then(&self, next: &Answers) -> Answers
        ensures { (g : AnyGesture) → answer_in result g ≡ decision_after (answer_in self.now g) (answer_in next.now g) }
    {
        Answers {
            tap: self.tap.then(next.tap),
            long: self.long.then(next.long),
            vertical: self.vertical.then(next.vertical),
            horizontal: self.horizontal.then(next.horizontal),
            pan: self.pan.then(next.pan),
        }
    }

    fn by(&self, gesture: Gesture) -> Decision
        ensures { result ≡ answer_in self.now gesture }
    {
        match gesture {
            Gesture::Tap => self.tap,
            Gesture::Long => self.long,
            Gesture::Vertical => self.vertical,
            Gesture::Horizontal => self.horizontal,
            Gesture::Pan => self.pan,
        }
    }

    // A member, with what its gesture has decided.
    pub fn given_to(&self, t: Tracked) -> Tracked
        ensures { result ≡ answered self.now t }
    {
        Tracked {
            node: t.node,
            gesture: t.gesture,
            decision: t.decision.then(self.by(t.gesture)),
            dropped: t.dropped,
        }
    }

    // Whether one of them has accepted.
    pub fn accept(&self) -> bool
        ensures { result ≡ accepts_some self.now }
    {
        self.tap.accepts()
            || self.long.accepts()
            || self.vertical.accepts()
            || self.horizontal.accepts()
            || self.pan.accepts()
    }
}

impl Decision {
    // The decision with one that comes after it, which counts where nothing was decided.
    fn then(self, next: Decision) -> Decision
        ensures { result ≡ decision_after self next }
    {
        match self {
            Decision::Waits => next,
            Decision::Rejects => Decision::Rejects,
            Decision::Accepts => Decision::Accepts,
        }
    }
}
