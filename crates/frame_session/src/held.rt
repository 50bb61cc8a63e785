// What a session keeps beside its delegates.
ghost use Rattle.std.specs.Prelude.{◌≡◌, IfOk, IfSome, List, []};
ghost use Rattle.delegates.specs.Table.{Plug, first_of_each};
ghost use Rattle.gesture_arena.specs.StandsFor.{events_left};
ghost use Rattle.widget_model.specs.Sized.{IsSized};
ghost use Rattle.widget_model.specs.Typed.{IsTypedWidget};
ghost use Rattle.widget_model.specs.View.{shared};
ghost use Rattle.template_build.specs.HandlersIn.{HandlersMeet, SetsNothing};
ghost use Rattle.template_build.specs.Program.{declarations_of};
ghost use Rattle.program_check.specs.BodyView.{plain_body};
ghost use Rattle.program_check.specs.CheckedView.{plain_checked};
ghost use Rattle.program_check.specs.TypedChecked.{IsTypedRoot};
ghost use Rattle.session_form.specs.Program.{root_widget};
ghost use Rattle.session_form.specs.State.{first_state};
ghost use Rattle.versioned_kinds.specs.Versions.{KeepsToVersion};
ghost use Rattle.counted_work.specs.Known.{no_frames};
ghost use Rattle.frame_session.specs.StandsFor.{StandsFor, IsRoot, IsSound};
ghost use Rattle.frame_session.specs.Works.{StateIsCaused};

use counted_work::sessions_begin_with_causes;
use frame_owner::{FrameOwner, what_stands_is_drawn};
use fx_geom::Size;
use gesture_arena::Pointers;
use program_check::{Body, Checked};
use std::alloc::{AllocError, Global};
use std::rc::Rc;
use template_build::{BuildFault, a_root_is_one_widget, build_root, handlers_fit_their_owners};
use versioned_kinds::states_keep_to_their_version;
use widget_model::Widget;

// The program, and what its frames and the commands between them have made of it.
#[derive(Drop)]
pub(crate) struct HeldSession {
    pub(crate) program: Checked,
    // None where it is too large for a build.
    pub(crate) root: Option<Rc<Widget>>,
    // Whether it is the root of the last frame.
    pub(crate) same_root: bool,
    // What is kept of the last frame for the next: elements, render nodes and layers, with fields and offsets as the lines since then left
    // them.
    pub(crate) owner: FrameOwner,
    pub(crate) view: Size,
    pub(crate) pointers: Pointers,
    pub(crate) time: u64,
    pub(crate) frames: u64,
    // The text of what the last frame shows, without its number: none where there was no memory for it.
    pub(crate) last: Option<Vec<u8>>,
}

// The widget that a checked root gives, unless it is too large for a build.
pub(crate) fn kept_root(
    alloc: Global,
    program: &Checked,
    body: &Body,
) -> Result<Option<Rc<Widget>>, AllocError>
    requires typed { IsTypedRoot (plain_checked program.now) (plain_body body.now) }
    ensures root { IfOk result (λ kept. IsRoot kept (root_widget (plain_checked program.now) (plain_body body.now))) }
    ensures typed { IfOk result (λ kept. IfSome kept (λ r. IsTypedWidget (declarations_of (plain_checked program.now)) (shared r))) }
    ensures sized { IfOk result (λ kept. IfSome kept (λ r. IsSized r.value)) }
    ensures sets { IfOk result (λ kept. IfSome kept (λ r. HandlersMeet SetsNothing (shared r))) }
{
    let _ = program.parts();
    handlers_fit_their_owners();
    a_root_is_one_widget();
    match build_root(alloc, program, body) {
        Ok(widget) => Ok(Some(widget)),
        Err(BuildFault::OutputTooLarge) => Ok(None),
        Err(BuildFault::OutOfMemory) => Err(AllocError),
    }
}

impl HeldSession {
    // Before the first command.
    pub(crate) fn new(alloc: Global, program: Checked) -> Result<HeldSession, AllocError>
        ensures state { (ds : List Plug) → IfOk result (λ h. StandsFor h (first_of_each ds) (first_state (plain_checked program) ds)) }
        ensures sound { IfOk result (λ h. IsSound h) }
        ensures none_left { IfOk result (λ h. events_left h.pointers ≡ []) }
        ensures frames { IfOk result (λ h. h.frames ≡ 0) }
        ensures causes { IfOk result (λ h. KeepsToVersion (plain_checked program) → (ds : List Plug) → StateIsCaused no_frames (first_state (plain_checked program) ds) h.owner.screen.nodes) }
    {
        sessions_begin_with_causes();
        what_stands_is_drawn();
        states_keep_to_their_version();
        let parts = program.parts();
        let root = kept_root(alloc, &program, &parts.root)?;
        let view = parts.view;
        let owner = FrameOwner::new(alloc, program.scale());
        let pointers = Pointers::new(alloc, program.scale())?;
        Ok(HeldSession {
            program,
            root,
            same_root: false,
            owner,
            view,
            pointers,
            time: 0,
            frames: 0,
            last: None,
        })
    }
}
