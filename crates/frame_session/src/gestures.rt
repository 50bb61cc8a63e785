// The lines of time, of pointers and of semantics actions.
ghost use Rattle.std.specs.Prelude.{◌≡◌, ◌++◌, [], IfOk, OnOk, OnErr, List};
ghost use Rattle.delegates.specs.Table.{Plug};
ghost use Rattle.gesture_arena.specs.Pointers.{IsInRange};
ghost use Rattle.gesture_arena.specs.StandsFor.{events_left};
ghost use Rattle.session_form.specs.Gestures.{event_by, members_at, at_line, down_line, move_line, up_line, cancel_line, act_line};
ghost use Rattle.session_form.specs.Outcome.{state_after, text_of, end_of};
ghost use Rattle.frame_session.specs.Memory.{MayLackMemory};
ghost use Rattle.frame_session.specs.StandsFor.{StandsFor, IsSound};
ghost use Rattle.session_form.specs.State.{SessionState};

use crate::events::print_event;
use crate::held::HeldSession;
use fx_geom::Offset;
use gesture_arena::{ArenaEvent, Member};
use render_readers::{hit_members, semantics};
use script_lines::Action;
use semantics_tree::{ActFault, act};
use session_form::{LineEnd, Refusal};
use std::alloc::{AllocError, Global};

// What it does at a detector.
fn event_by(action: Action, detector: u64) -> ArenaEvent
    ensures { result ≡ event_by action detector }
{
    match action {
        Action::Tap => ArenaEvent::Tap { node: detector },
        Action::Long => ArenaEvent::Long { node: detector },
    }
}

impl HeldSession {
    // `at T`
    pub(crate) fn advance(
        &mut self,
        alloc: Global,
        time: u64,
        out: &mut Vec<u8>,
    ) -> Result<LineEnd, AllocError>
        requires sound { IsSound self.old }
        requires none_left { events_left self.old.pointers ≡ [] }
        ensures state { (ds : List Plug) (s : SessionState) → StandsFor self.old ds s → OnOk result (StandsFor self.new ds (state_after s (at_line time s))) }
        ensures text { (ds : List Plug) (s : SessionState) → StandsFor self.old ds s → OnOk result (out.new.items ≡ out.old.items ++ text_of (at_line time s)) }
        ensures end { (ds : List Plug) (s : SessionState) → StandsFor self.old ds s → IfOk result (λ end. end ≡ end_of (at_line time s)) }
        ensures memory { (ds : List Plug) (s : SessionState) → StandsFor self.old ds s → OnErr result (MayLackMemory (at_line time s)) }
        ensures sound { OnOk result (IsSound self.new) }
        ensures none_left { OnOk result (events_left self.new.pointers ≡ []) }
        ensures frames { OnOk result (self.new.frames ≡ self.old.frames) }
        ensures screen { OnOk result (self.new.owner.screen ≡ self.old.owner.screen) }
    {
        if time < self.time {
            return Ok(LineEnd::Refused(Refusal::TimeGoesBack));
        }
        self.pointers.advance(time);
        self.take_events(alloc, out)?;
        self.time = time;
        Ok(LineEnd::Done)
    }

    // The members of a pointer that goes down at a point of the view.
    fn members_at(&self, alloc: Global, at: Offset) -> Result<Vec<Member>, AllocError>
        ensures { (ds : List Plug) (s : SessionState) → StandsFor self.now ds s → IfOk result (λ ms. ms.items ≡ members_at s.shown at) }
    {
        hit_members(alloc, self.owner.render(), at)
    }

    // `down P X Y`
    pub(crate) fn down(
        &mut self,
        alloc: Global,
        pointer: u32,
        at: Offset,
        out: &mut Vec<u8>,
    ) -> Result<LineEnd, AllocError>
        requires sound { IsSound self.old }
        requires none_left { events_left self.old.pointers ≡ [] }
        requires in_range { IsInRange at }
        ensures state { (ds : List Plug) (s : SessionState) → StandsFor self.old ds s → OnOk result (StandsFor self.new ds (state_after s (down_line pointer at s))) }
        ensures text { (ds : List Plug) (s : SessionState) → StandsFor self.old ds s → OnOk result (out.new.items ≡ out.old.items ++ text_of (down_line pointer at s)) }
        ensures end { (ds : List Plug) (s : SessionState) → StandsFor self.old ds s → IfOk result (λ end. end ≡ end_of (down_line pointer at s)) }
        ensures memory { (ds : List Plug) (s : SessionState) → StandsFor self.old ds s → OnErr result (MayLackMemory (down_line pointer at s)) }
        ensures sound { OnOk result (IsSound self.new) }
        ensures none_left { OnOk result (events_left self.new.pointers ≡ []) }
        ensures frames { OnOk result (self.new.frames ≡ self.old.frames) }
        ensures screen { OnOk result (self.new.owner.screen ≡ self.old.owner.screen) }
    {
        if self.pointers.is_down(pointer) {
            return Ok(LineEnd::Refused(Refusal::PointerIsDown));
        }
        if self.pointers.is_full() {
            return Ok(LineEnd::Refused(Refusal::TooManyPointers));
        }
        let members = self.members_at(alloc, at)?;
        match self
            .pointers
            .down(pointer, at, self.time, members.as_slice())
        {
            Ok(()) => {
                self.take_events(alloc, out)?;
                Ok(LineEnd::Done)
            }
            // There is room for it: memory alone can fail.
            Err(_) => Err(AllocError),
        }
    }

    // `move P X Y`
    pub(crate) fn move_to(
        &mut self,
        alloc: Global,
        pointer: u32,
        at: Offset,
        out: &mut Vec<u8>,
    ) -> Result<LineEnd, AllocError>
        requires sound { IsSound self.old }
        requires none_left { events_left self.old.pointers ≡ [] }
        requires in_range { IsInRange at }
        ensures state { (ds : List Plug) (s : SessionState) → StandsFor self.old ds s → OnOk result (StandsFor self.new ds (state_after s (move_line pointer at s))) }
        ensures text { (ds : List Plug) (s : SessionState) → StandsFor self.old ds s → OnOk result (out.new.items ≡ out.old.items ++ text_of (move_line pointer at s)) }
        ensures end { (ds : List Plug) (s : SessionState) → StandsFor self.old ds s → IfOk result (λ end. end ≡ end_of (move_line pointer at s)) }
        ensures memory { (ds : List Plug) (s : SessionState) → StandsFor self.old ds s → OnErr result (MayLackMemory (move_line pointer at s)) }
        ensures sound { OnOk result (IsSound self.new) }
        ensures none_left { OnOk result (events_left self.new.pointers ≡ []) }
        ensures frames { OnOk result (self.new.frames ≡ self.old.frames) }
        ensures screen { OnOk result (self.new.owner.screen ≡ self.old.owner.screen) }
    {
        match self.pointers.moved(pointer, at) {
            Ok(()) => {
                self.take_events(alloc, out)?;
                Ok(LineEnd::Done)
            }
            Err(_) => Ok(LineEnd::Refused(Refusal::PointerIsUp)),
        }
    }

    // `up P`
    pub(crate) fn up(
        &mut self,
        alloc: Global,
        pointer: u32,
        out: &mut Vec<u8>,
    ) -> Result<LineEnd, AllocError>
        requires sound { IsSound self.old }
        requires none_left { events_left self.old.pointers ≡ [] }
        ensures state { (ds : List Plug) (s : SessionState) → StandsFor self.old ds s → OnOk result (StandsFor self.new ds (state_after s (up_line pointer s))) }
        ensures text { (ds : List Plug) (s : SessionState) → StandsFor self.old ds s → OnOk result (out.new.items ≡ out.old.items ++ text_of (up_line pointer s)) }
        ensures end { (ds : List Plug) (s : SessionState) → StandsFor self.old ds s → IfOk result (λ end. end ≡ end_of (up_line pointer s)) }
        ensures memory { (ds : List Plug) (s : SessionState) → StandsFor self.old ds s → OnErr result (MayLackMemory (up_line pointer s)) }
        ensures sound { OnOk result (IsSound self.new) }
        ensures none_left { OnOk result (events_left self.new.pointers ≡ []) }
        ensures frames { OnOk result (self.new.frames ≡ self.old.frames) }
        ensures screen { OnOk result (self.new.owner.screen ≡ self.old.owner.screen) }
    {
        match self.pointers.up(pointer) {
            Ok(()) => {
                self.take_events(alloc, out)?;
                Ok(LineEnd::Done)
            }
            Err(_) => Ok(LineEnd::Refused(Refusal::PointerIsUp)),
        }
    }

    // `cancel P`
    pub(crate) fn cancel(
        &mut self,
        alloc: Global,
        pointer: u32,
        out: &mut Vec<u8>,
    ) -> Result<LineEnd, AllocError>
        requires sound { IsSound self.old }
        requires none_left { events_left self.old.pointers ≡ [] }
        ensures state { (ds : List Plug) (s : SessionState) → StandsFor self.old ds s → OnOk result (StandsFor self.new ds (state_after s (cancel_line pointer s))) }
        ensures text { (ds : List Plug) (s : SessionState) → StandsFor self.old ds s → OnOk result (out.new.items ≡ out.old.items ++ text_of (cancel_line pointer s)) }
        ensures end { (ds : List Plug) (s : SessionState) → StandsFor self.old ds s → IfOk result (λ end. end ≡ end_of (cancel_line pointer s)) }
        ensures memory { (ds : List Plug) (s : SessionState) → StandsFor self.old ds s → OnErr result (MayLackMemory (cancel_line pointer s)) }
        ensures sound { OnOk result (IsSound self.new) }
        ensures none_left { OnOk result (events_left self.new.pointers ≡ []) }
        ensures frames { OnOk result (self.new.frames ≡ self.old.frames) }
        ensures screen { OnOk result (self.new.owner.screen ≡ self.old.owner.screen) }
    {
        match self.pointers.cancel(pointer) {
            Ok(()) => {
                self.take_events(alloc, out)?;
                Ok(LineEnd::Done)
            }
            Err(_) => Ok(LineEnd::Refused(Refusal::PointerIsUp)),
        }
    }

    // `act #n tap`, `act #n long`
    pub(crate) fn act(
        &mut self,
        alloc: Global,
        number: u64,
        action: Action,
        out: &mut Vec<u8>,
    ) -> Result<LineEnd, AllocError>
        requires sound { IsSound self.old }
        requires none_left { events_left self.old.pointers ≡ [] }
        ensures state { (ds : List Plug) (s : SessionState) → StandsFor self.old ds s → OnOk result (StandsFor self.new ds (state_after s (act_line number action s))) }
        ensures text { (ds : List Plug) (s : SessionState) → StandsFor self.old ds s → OnOk result (out.new.items ≡ out.old.items ++ text_of (act_line number action s)) }
        ensures end { (ds : List Plug) (s : SessionState) → StandsFor self.old ds s → IfOk result (λ end. end ≡ end_of (act_line number action s)) }
        ensures memory { (ds : List Plug) (s : SessionState) → StandsFor self.old ds s → OnErr result (MayLackMemory (act_line number action s)) }
        ensures sound { OnOk result (IsSound self.new) }
        ensures none_left { OnOk result (events_left self.new.pointers ≡ []) }
        ensures frames { OnOk result (self.new.frames ≡ self.old.frames) }
        ensures screen { OnOk result (self.new.owner.screen ≡ self.old.owner.screen) }
    {
        let Some(root) = semantics(alloc, self.owner.render())? else {
            return Ok(LineEnd::Refused(Refusal::NoSemanticsNode));
        };
        match act(&root, number, action) {
            Ok(detector) => {
                let event = event_by(action, detector);
                self.do_event(alloc, event)?;
                print_event(event, out)?;
                Ok(LineEnd::Done)
            }
            Err(ActFault::NoSemanticsNode) => Ok(LineEnd::Refused(Refusal::NoSemanticsNode)),
            Err(ActFault::NoAction) => Ok(LineEnd::Refused(Refusal::NoAction)),
        }
    }
}
