// What events do: the handlers of detectors.
ghost use Rattle.std.specs.Prelude.{◌≡◌, ◌++◌, [], OnOk, List};
ghost use Rattle.delegates.specs.Table.{Plug};
ghost use Rattle.gesture_arena.specs.StandsFor.{events_left};
ghost use Rattle.session_form.specs.EventText.{events_text};
ghost use Rattle.session_form.specs.Handlers.{run_at, after_event, after_events};
ghost use Rattle.frame_session.specs.StandsFor.{StandsFor, IsSound};
ghost use Rattle.session_form.specs.State.{SessionState};

use crate::changing::copies;
use crate::events::print_event;
use crate::held::HeldSession;
use build_form::changes_keep_numbering;
use frame_owner::marks_need_nodes;
use fx_expr::run_handler;
use gesture_arena::{ArenaEvent, Gesture};
use hit_testing::handler_of;
use std::alloc::{AllocError, Global};

impl HeldSession {
    // Runs the handler that a node has for a gesture, which moved by this: it sets its owner's fields. Outside components
    // there is no owner.
    fn run(
        &mut self,
        alloc: Global,
        number: u64,
        gesture: Gesture,
        dx: i64,
        dy: i64,
    ) -> Result<(), AllocError>
        requires { IsSound self.old }
        ensures state { (ds : List Plug) (s : SessionState) → StandsFor self.old ds s
            → OnOk result (StandsFor self.new ds (run_at number gesture dx dy s)) }
        ensures sound { OnOk result (IsSound self.new) }
        ensures pointers { self.new.pointers ≡ self.old.pointers }
        ensures frames { self.new.frames ≡ self.old.frames }
        ensures screen { self.new.owner.screen ≡ self.old.owner.screen }
    {
        changes_keep_numbering();
        marks_need_nodes();
        let Some(detector) = self.owner.widget(number) else {
            return Ok(());
        };
        let Some(handler) = handler_of(&detector.kind, gesture) else {
            return Ok(());
        };
        let owner = handler.owner;
        if owner == 0 || self.owner.widget(owner).is_none() {
            return Ok(());
        }
        let mut fields = copies(alloc, self.owner.fields(owner))?;
        run_handler(alloc, handler, &mut fields, (dx, dy))?;
        self.owner.set_fields(owner, fields);
        Ok(())
    }

    // Does what an event asks for.
    pub(crate) fn do_event(&mut self, alloc: Global, event: ArenaEvent) -> Result<(), AllocError>
        requires { IsSound self.old }
        ensures state { (ds : List Plug) (s : SessionState) → StandsFor self.old ds s
            → OnOk result (StandsFor self.new ds (after_event event s)) }
        ensures sound { OnOk result (IsSound self.new) }
        ensures pointers { self.new.pointers ≡ self.old.pointers }
        ensures frames { self.new.frames ≡ self.old.frames }
        ensures screen { self.new.owner.screen ≡ self.old.owner.screen }
    {
        match event {
            ArenaEvent::Tap { node } => self.run(alloc, node, Gesture::Tap, 0, 0),
            ArenaEvent::Long { node } => self.run(alloc, node, Gesture::Long, 0, 0),
            ArenaEvent::Update {
                node,
                gesture,
                dx,
                dy,
            } => self.run(alloc, node, gesture, dx, dy),
            ArenaEvent::Won { .. }
            | ArenaEvent::Nobody { .. }
            | ArenaEvent::Start { .. }
            | ArenaEvent::End { .. } => Ok(()),
        }
    }

    // Takes the events that are left, in order: each is done and printed.
    pub(crate) fn take_events(&mut self, alloc: Global, out: &mut Vec<u8>) -> Result<(), AllocError>
        requires { IsSound self.old }
        ensures state { (ds : List Plug) (s : SessionState) → StandsFor self.old ds s
            → OnOk result (StandsFor self.new ds (after_events (events_left self.old.pointers) s)) }
        ensures sound { OnOk result (IsSound self.new) }
        ensures left { OnOk result (events_left self.new.pointers ≡ []) }
        ensures frames { OnOk result (self.new.frames ≡ self.old.frames) }
        ensures screen { OnOk result (self.new.owner.screen ≡ self.old.owner.screen) }
        ensures text { OnOk result (out.new.items ≡ out.old.items ++ events_text (events_left self.old.pointers)) }
    {
        while let Some(event) = self.pointers.next_event() {
            self.do_event(alloc, event)?;
            print_event(event, out)?;
        }
        Ok(())
    }
}
