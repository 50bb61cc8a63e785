// The line `frame`.
ghost use Rattle.std.specs.Prelude.{◌≡◌, ◌++◌, ◌+◌, ◌<◌, ◌≤◌, ◌^◌, true, false, [], List, length, Some, None, IfOk, IfErr, IfSome, OnOk, OnErr};
ghost use Rattle.delegates.specs.Table.{Plug, meant_in};
ghost use Rattle.gesture_arena.specs.StandsFor.{events_left};
ghost use Rattle.build_form.specs.FaultView.{fault_of};
ghost use Rattle.build_form.specs.FullBuild.{failed, built};
ghost use Rattle.build_form.specs.Step.{Fault};
ghost use Rattle.session_form.specs.EventText.{events_text};
ghost use Rattle.session_form.specs.FaultText.{fault_text};
ghost use Rattle.session_form.specs.FrameText.{frame_text};
ghost use Rattle.session_form.specs.Framing.{built_of, gone_members, after_drops, drop_events, frame_line};
ghost use Rattle.session_form.specs.Handlers.{is_gone};
ghost use Rattle.session_form.specs.Outcome.{state_after, text_of, end_of, faulted};
ghost use Rattle.session_form.specs.Program.{scale_of};
ghost use Rattle.frame_session.specs.Ending.{IfGoesOn};
ghost use Rattle.frame_session.specs.Memory.{MayLackMemory};
ghost use Rattle.frame_session.specs.StandsFor.{StandsFor, HasFramed, IsRightStill, IsSound};
ghost use Rattle.session_form.specs.State.{SessionState, Shown};
ghost use Rattle.script_lines.specs.declared.command.Command.TheVariants as command;
ghost use Rattle.versioned_kinds.specs.Versions.{StateKeepsToVersion};
ghost use Rattle.work_sets.specs.Before.{Frames};
ghost use Rattle.work_sets.specs.Work.{due_components};
ghost use Rattle.counted_work.specs.Known.{WorkIsCaused};
ghost use Rattle.frame_session.specs.Works.{NodesGoOn};

use crate::frame_text::{print_frame, print_repeated_global_key, print_repeated_sibling_key};
use crate::held::HeldSession;
use build_form::{
    FrameFault, builds_are_well_built, built_trees_vanish_alone, changes_keep_numbering,
    few_numbers_are_given, handlers_belong_to_nodes_above, numbers_are_old_or_new, numbers_differ,
    owned_handlers_fit, states_survive, survivors, trees_keep_to_the_limit,
};
use counted_frames::{frames_with_faults_keep_to_their_work, phased_frames_keep_to_their_work};
use delegates::{Delegate, DelegateTable};
use frame_owner::{frames_build_what_is_due, what_stands_is_drawn};
use fx_outside::Steps;
use gesture_arena::Member;
use hit_testing::handler_of;
use plain_tree::{one_root_is_laid_out, projection_keeps_numbers_apart};
use session_form::LineEnd;
use std::alloc::{AllocError, Global};
use std::sync::ledger::Ledger;
use versioned_kinds::{first_versions_have_no_lists, states_keep_to_their_version};

// Adds the line of a frame's fault. Want of memory is none.
fn print_fault(alloc: Global, fault: &FrameFault, out: &mut Vec<u8>) -> Result<(), AllocError>
    ensures text { (f : Fault) → fault_of fault.now ≡ Some f → OnOk result (out.new.items ≡ out.old.items ++ fault_text f) }
    ensures no_memory { fault_of fault.now ≡ None → OnOk result ⊥ }
{
    match fault {
        FrameFault::RepeatedSiblingKey(key) => print_repeated_sibling_key(alloc, key, out),
        FrameFault::RepeatedGlobalKey(key) => print_repeated_global_key(alloc, key, out),
        FrameFault::TreeTooLarge => out.extend_from_slice(b"fault tree-too-large\n"),
        FrameFault::OutputTooLarge => out.extend_from_slice(b"fault output-too-large\n"),
        FrameFault::OutOfMemory => Err(AllocError),
    }
}

// How a frame ends that has a fault, whose line is added. Want of memory is no fault of a frame.
fn end_with(alloc: Global, fault: FrameFault, out: &mut Vec<u8>) -> Result<LineEnd, AllocError>
    ensures text { (f : Fault) → fault_of fault ≡ Some f → OnOk result (out.new.items ≡ out.old.items ++ fault_text f) }
    ensures end { (f : Fault) → fault_of fault ≡ Some f → IfOk result (λ end. end ≡ end_of (faulted f)) }
    ensures no_memory { fault_of fault ≡ None → OnOk result ⊥ }
{
    print_fault(alloc, &fault, out)?;
    Ok(LineEnd::Fault(fault))
}

// Forgets the text of what was shown, unless it is shown again.
fn forget_unless(again: bool, text: &mut Option<Vec<u8>>)
    ensures again { again ≡ true → text.new ≡ text.old }
    ensures other { again ≡ false → text.new ≡ None }
{
    if again {
        return;
    }
    *text = None;
}

impl HeldSession {
    // Builds the present configuration, and shows it.
    fn show<B: Ledger, L: Ledger, P: Ledger>(
        &mut self,
        delegates: &DelegateTable,
        builds: &mut Steps<B>,
        layouts: &mut Steps<L>,
        paints: &mut Steps<P>,
    ) -> Result<(), FrameFault>
        requires sound { IsSound self.old }
        requires right { IsRightStill (meant_in delegates.now ⟦<dyn Delegate as Delegate>⟧) self.old.owner }
        requires frames { self.old.frames < 2 ^ 32 }
        ensures state { (s : SessionState) → StandsFor self.old (meant_in delegates.now ⟦<dyn Delegate as Delegate>⟧) s
            → OnOk result (HasFramed (built_of s) self.new (meant_in delegates.now ⟦<dyn Delegate as Delegate>⟧) s) }
        ensures fault { (s : SessionState) → StandsFor self.old (meant_in delegates.now ⟦<dyn Delegate as Delegate>⟧) s
            → IfErr result (λ f. IfSome (fault_of f) (λ g. built_of s ≡ failed g)) }
        ensures work { (frames : Frames) (s : SessionState) → StandsFor self.old (meant_in delegates.now ⟦<dyn Delegate as Delegate>⟧) s
            → StateKeepsToVersion s → WorkIsCaused frames s self.old.owner.screen.nodes
            → OnOk result (NodesGoOn frames s command.Frame self.new.owner.screen.nodes layouts.old layouts.new paints.old paints.new) }
        ensures work_at_fault { (frames : Frames) (s : SessionState) → StandsFor self.old (meant_in delegates.now ⟦<dyn Delegate as Delegate>⟧) s
            → StateKeepsToVersion s → WorkIsCaused frames s self.old.owner.screen.nodes
            → IfErr result (λ f. IfSome (fault_of f) (λ g. NodesGoOn frames s command.Frame self.new.owner.screen.nodes layouts.old layouts.new paints.old paints.new)) }
        ensures built { (s : SessionState) → StandsFor self.old (meant_in delegates.now ⟦<dyn Delegate as Delegate>⟧) s
            → OnOk result (builds.new ≤ builds.old + length (due_components s)) }
        ensures built_at_fault { (s : SessionState) → StandsFor self.old (meant_in delegates.now ⟦<dyn Delegate as Delegate>⟧) s
            → IfErr result (λ f. IfSome (fault_of f) (λ g. builds.new ≤ builds.old + length (due_components s))) }
        ensures sound { OnOk result (IsSound self.new) }
        ensures pointers { OnOk result (self.new.pointers ≡ self.old.pointers) }
        ensures frames { OnOk result (self.new.frames ≡ self.old.frames + 1) }
        ensures unshown { OnErr result (self.new.frames ≡ self.old.frames) }
    {
        builds_are_well_built();
        numbers_differ();
        few_numbers_are_given();
        numbers_are_old_or_new();
        handlers_belong_to_nodes_above();
        owned_handlers_fit();
        trees_keep_to_the_limit();
        survivors();
        states_survive();
        changes_keep_numbering();
        built_trees_vanish_alone();
        one_root_is_laid_out();
        projection_keeps_numbers_apart();
        what_stands_is_drawn();
        frames_build_what_is_due();
        states_keep_to_their_version();
        first_versions_have_no_lists();
        phased_frames_keep_to_their_work();
        frames_with_faults_keep_to_their_work();
        let _ = self.program.parts();
        let Some(root) = &self.root else {
            return Err(FrameFault::OutputTooLarge);
        };
        let idle = self.owner.frame(
            &self.program,
            root,
            self.same_root,
            self.view,
            delegates,
            builds,
            layouts,
            paints,
        )?;
        self.same_root = true;
        forget_unless(idle, &mut self.last);
        self.frames += 1;
        Ok(())
    }

    // Prints what the last frame shows, and keeps the text.
    fn picture(&mut self, alloc: Global, out: &mut Vec<u8>) -> Result<(), AllocError>
        ensures text { (ds : List Plug) (s : SessionState) (shown : Shown) → StandsFor self.old ds s → s.shown ≡ Some shown
            → OnOk result (out.new.items ≡ out.old.items ++ frame_text s.frames (scale_of s.program).cell shown) }
        ensures state { (ds : List Plug) (s : SessionState) → StandsFor self.old ds s → OnOk result (StandsFor self.new ds s) }
        ensures sound { IsSound self.old → IsSound self.new }
        ensures owner { self.new.owner ≡ self.old.owner }
        ensures pointers { self.new.pointers ≡ self.old.pointers }
        ensures frames { self.new.frames ≡ self.old.frames }
    {
        let Some(layers) = self.owner.layer() else {
            return Ok(());
        };
        print_frame(
            alloc,
            self.frames,
            self.owner.render(),
            layers,
            &mut self.last,
            out,
        )
    }

    // Whether a member's detector is gone, or has no handler of its kind any more.
    fn is_gone(&self, member: Member) -> bool
        ensures { (ds : List Plug) (s : SessionState) → StandsFor self.now ds s → result ≡ is_gone s.tree member }
    {
        match self.owner.widget(member.node) {
            Some(widget) => handler_of(&widget.kind, member.gesture).is_none(),
            None => true,
        }
    }

    // The members of the pointers that are down that are gone. There is no memory for more members than can be counted.
    fn gone_members(&self, alloc: Global) -> Result<Vec<Member>, AllocError>
        ensures { (ds : List Plug) (s : SessionState) → StandsFor self.now ds s → IfOk result (λ ms. ms.items ≡ gone_members s) }
    {
        let mut gone = Vec::new(alloc);
        for i in 0..usize::MAX {
            let Some(member) = self.pointers.member(i) else {
                return Ok(gone);
            };
            if self.is_gone(member) {
                gone.push(member)?;
            }
        }
        Err(AllocError)
    }

    // Drops members that are gone: each pointer that has one gets one moment.
    fn drop_gone(&mut self, alloc: Global, out: &mut Vec<u8>) -> Result<(), AllocError>
        requires sound { IsSound self.old }
        requires none_left { events_left self.old.pointers ≡ [] }
        ensures state { (ds : List Plug) (s : SessionState) → StandsFor self.old ds s → OnOk result (StandsFor self.new ds (after_drops s)) }
        ensures text { (ds : List Plug) (s : SessionState) → StandsFor self.old ds s
            → OnOk result (out.new.items ≡ out.old.items ++ events_text (drop_events s)) }
        ensures sound { OnOk result (IsSound self.new) }
        ensures none_left { OnOk result (events_left self.new.pointers ≡ []) }
        ensures frames { OnOk result (self.new.frames ≡ self.old.frames) }
        ensures screen { OnOk result (self.new.owner.screen ≡ self.old.owner.screen) }
    {
        let gone = self.gone_members(alloc)?;
        self.pointers.dropped(gone.as_slice());
        self.take_events(alloc, out)
    }

    // `frame`
    pub(crate) fn frame<B: Ledger, L: Ledger, P: Ledger>(
        &mut self,
        alloc: Global,
        delegates: &DelegateTable,
        out: &mut Vec<u8>,
        builds: &mut Steps<B>,
        layouts: &mut Steps<L>,
        paints: &mut Steps<P>,
    ) -> Result<LineEnd, AllocError>
        requires sound { IsSound self.old }
        requires right { IsRightStill (meant_in delegates.now ⟦<dyn Delegate as Delegate>⟧) self.old.owner }
        requires none_left { events_left self.old.pointers ≡ [] }
        requires frames { self.old.frames < 2 ^ 32 }
        ensures state { (s : SessionState) → StandsFor self.old (meant_in delegates.now ⟦<dyn Delegate as Delegate>⟧) s
            → IfGoesOn result (StandsFor self.new (meant_in delegates.now ⟦<dyn Delegate as Delegate>⟧) (state_after s (frame_line s))) }
        ensures text { (s : SessionState) → StandsFor self.old (meant_in delegates.now ⟦<dyn Delegate as Delegate>⟧) s
            → OnOk result (out.new.items ≡ out.old.items ++ text_of (frame_line s)) }
        ensures end { (s : SessionState) → StandsFor self.old (meant_in delegates.now ⟦<dyn Delegate as Delegate>⟧) s
            → IfOk result (λ end. end ≡ end_of (frame_line s)) }
        ensures memory { (s : SessionState) → StandsFor self.old (meant_in delegates.now ⟦<dyn Delegate as Delegate>⟧) s
            → OnErr result (MayLackMemory (frame_line s)) }
        ensures work { (frames : Frames) (s : SessionState) → StandsFor self.old (meant_in delegates.now ⟦<dyn Delegate as Delegate>⟧) s
            → StateKeepsToVersion s → WorkIsCaused frames s self.old.owner.screen.nodes
            → OnOk result (NodesGoOn frames s command.Frame self.new.owner.screen.nodes layouts.old layouts.new paints.old paints.new) }
        ensures built { (s : SessionState) → StandsFor self.old (meant_in delegates.now ⟦<dyn Delegate as Delegate>⟧) s
            → OnOk result (builds.new ≤ builds.old + length (due_components s)) }
        ensures sound { IfGoesOn result (IsSound self.new) }
        ensures none_left { IfGoesOn result (events_left self.new.pointers ≡ []) }
        ensures frames { OnOk result (self.new.frames ≤ self.old.frames + 1) }
    {
        match self.show(delegates, builds, layouts, paints) {
            Ok(()) => {
                self.picture(alloc, out)?;
                self.drop_gone(alloc, out)?;
                Ok(LineEnd::Done)
            }
            Err(fault) => end_with(alloc, fault, out),
        }
    }
}
