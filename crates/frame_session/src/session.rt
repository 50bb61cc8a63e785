// A session: a program over which commands are done one after another.
ghost use Rattle.std.specs.Prelude.{◌≡◌, ◌<◌, ◌^◌, IfOk, string_bytes, vec_len};
ghost use Rattle.delegates.specs.Table.{each_of, first_of_each, plugged, meant_in};

use crate::held::HeldSession;
use crate::kept::Kept;
use delegates::{Delegate, DelegateTable, Named};
use fx_geom::Size;
use fx_outside::Steps;
use layer_tree::Layer;
use program_check::Checked;
use render_tree::RenderTree;
use script_lines::Command;
use session_form::LineEnd;
use std::alloc::{AllocError, Global};
use std::sync::ledger::Ledger;
use versioned_kinds::states_keep_to_their_version;

/// A program, and what its frames and the commands between them have made of it. After want of memory it is spent: each
/// later command answers want of memory. And after a fault of a frame it is over: no command may follow.
#[derive(Drop)]
pub struct Session {
    alloc: Global,
    delegates: DelegateTable,
    kept: Kept,
}

// A table of these delegates. A list is never longer than memory.
fn table_of(alloc: Global, delegates: Vec<Named>) -> Result<DelegateTable, AllocError>
    requires { vec_len delegates < 2 ^ 64 }
    ensures { IfOk result (λ t. meant_in t ⟦<dyn Delegate as Delegate>⟧
        ≡ first_of_each (each_of delegates.items (λ n. plugged (string_bytes n.name) ((⟦<dyn Delegate as Delegate>⟧ n.delegate.vtable).meaning n.delegate.value)))) }
{
    DelegateTable::new(alloc, delegates)
}

impl Session {
    ghost use Rattle.std.specs.Prelude.{◌≡◌, ◌≢◌, ◌+◌, ◌*◌, ◌++◌, ◌<◌, ◌≤◌, ◌↔◌, ◌^◌, true, false, List, length, Ok, IfOk, OnOk, OnErr, option_map, string_bytes};
    ghost use Rattle.delegates.specs.Table.{Plug, each_of, if_some, plugged};
    ghost use Rattle.fx_geom.specs.Size.{HasLengths};
    ghost use Rattle.program_check.specs.CheckedView.{plain_checked};
    ghost use Rattle.script_lines.specs.Ranges.{HasSignedRanges};
    ghost use Rattle.session_form.specs.Step.{frames_of};
    ghost use Rattle.frame_session.specs.Ending.{is_fault, IfGoesOn};
    ghost use Rattle.frame_session.specs.Holds.{IsSpent, IsOver, HoldsState, HoldsSome, frames_shown};
    ghost use Rattle.render_readers.specs.Shown.{shown_laid};
    ghost use Rattle.session_form.specs.FrameText.{layers_of};
    ghost use Rattle.frame_session.specs.Memory.{takes_no_memory};
    ghost use Rattle.session_form.specs.Outcome.{refused, state_after, text_of, end_of};
    ghost use Rattle.session_form.specs.declared.refusal.Refusal.{Refusal};
    ghost use Rattle.session_form.specs.Program.{scale_of};
    ghost use Rattle.session_form.specs.Seeing.{view_in};
    ghost use Rattle.session_form.specs.State.{SessionState, Shown, first_state};
    ghost use Rattle.session_form.specs.Step.{step};
    ghost use Rattle.work_sets.specs.Before.{Frames};
    ghost use Rattle.work_sets.specs.Work.{due_components};
    ghost use Rattle.versioned_kinds.specs.Versions.{KeepsToVersion};
    ghost use Rattle.counted_work.specs.Known.{no_frames};
    ghost use Rattle.frame_session.specs.Works.{IsCaused, GoesOn};

    /// A session before its first command. Of delegates of equal names the first counts.
    pub fn new(
        alloc: Global,
        program: Checked,
        delegates: Vec<Named>,
    ) -> Result<Session, AllocError>
        ensures state { IfOk result (λ s. HoldsState s ⟦<dyn Delegate as Delegate>⟧
            (first_state (plain_checked program) (each_of delegates.items (λ n. plugged (string_bytes n.name) ((⟦<dyn Delegate as Delegate>⟧ n.delegate.vtable).meaning n.delegate.value))))) }
        ensures frames { IfOk result (λ s. frames_shown s ≡ 0) }
        ensures going { IfOk result (λ s. IsOver s → ⊥) }
        // No node was ever laid out; and no kind came later than the version, where the program keeps to it, as any does that was read.
        ensures causes { IfOk result (λ s. KeepsToVersion (plain_checked program) → (plugs : List Plug) → IsCaused no_frames (first_state (plain_checked program) plugs) s) }
    {
        let delegates = table_of(alloc, delegates)?;
        let held = HeldSession::new(alloc, program)?;
        Ok(Session {
            alloc,
            delegates,
            kept: Kept::new(held),
        })
    }

    /// Does one command, and appends its text: it is the definition's step, for each state that the session stands for.
    /// `Fault` ends the session: nothing may be asked of it any more, since a frame that has a fault may have changed a part of what it keeps.
    /// Want of memory spends the session, and leaves `out` as it was. It never comes in place of a refusal that is found before anything
    /// takes memory.
    pub fn line<B: Ledger, L: Ledger, P: Ledger>(
        &mut self,
        command: &Command,
        out: &mut Vec<u8>,
        builds: &mut Steps<B>,
        layouts: &mut Steps<L>,
        paints: &mut Steps<P>,
    ) -> Result<LineEnd, AllocError>
        requires in_range { HasSignedRanges command.now }
        requires frames { frames_shown self.old < 2 ^ 32 }
        requires going { IsOver self.old → ⊥ }
        requires holds { HoldsSome self.old ⟦<dyn Delegate as Delegate>⟧ }
        ensures state { (s : SessionState) → HoldsState self.old ⟦<dyn Delegate as Delegate>⟧ s
            → IfGoesOn result (HoldsState self.new ⟦<dyn Delegate as Delegate>⟧ (state_after s (step s command.now))) }
        ensures text { (s : SessionState) → HoldsState self.old ⟦<dyn Delegate as Delegate>⟧ s
            → OnOk result (out.new.items ≡ out.old.items ++ text_of (step s command.now)) }
        ensures end { (s : SessionState) → HoldsState self.old ⟦<dyn Delegate as Delegate>⟧ s
            → IfOk result (λ end. end ≡ end_of (step s command.now)) }
        ensures refused { (s : SessionState) (why : Refusal) → takes_no_memory why ≡ true → HoldsState self.old ⟦<dyn Delegate as Delegate>⟧ s
            → (result ≡ Ok (LineEnd.Refused why)) ↔ (step s command.now ≡ refused why) }
        // A frame counts no more layouts and paints than its work, also one that has a fault, where it is known which frames layouts left
        // and that flags have causes; unless it has a fault the line leaves it known. And nothing is counted by any other line.
        ensures work { (frames : Frames) (s : SessionState) → HoldsState self.old ⟦<dyn Delegate as Delegate>⟧ s → IsCaused frames s self.old
            → OnOk result (GoesOn frames s command.now self.new layouts.old layouts.new paints.old paints.new) }
        // It builds no more components than are due, where it is a frame, also one that has a fault.
        ensures built { (s : SessionState) → HoldsState self.old ⟦<dyn Delegate as Delegate>⟧ s
            → OnOk result (builds.new ≤ builds.old + frames_of command.now * length (due_components s)) }
        ensures idle { frames_of command.now ≡ 0 → (builds.new ≡ builds.old) × (layouts.new ≡ layouts.old) × (paints.new ≡ paints.old) }
        ensures frames { frames_shown self.new ≤ frames_shown self.old + frames_of command.now }
        ensures over { IfOk result (λ end. IsOver self.new ↔ (is_fault end ≡ true)) }
        ensures still_going { OnErr result (IsOver self.new → ⊥) }
        // No other line than a frame has a fault.
        ensures faultless { frames_of command.now ≡ 0 → IfOk result (λ end. is_fault end ≡ false) }
        ensures err { OnErr result (out.new.items ≡ out.old.items) }
        ensures spent { OnErr result (IsSpent self.new) }
        ensures stays_spent { IsSpent self.old → OnOk result ⊥ }
    {
        states_keep_to_their_version();
        self.kept.line(
            self.alloc,
            &mut self.delegates,
            command,
            out,
            builds,
            layouts,
            paints,
        )
    }

    /// Does the command `frame`. It never answers `Refused`.
    pub fn frame<B: Ledger, L: Ledger, P: Ledger>(
        &mut self,
        out: &mut Vec<u8>,
        builds: &mut Steps<B>,
        layouts: &mut Steps<L>,
        paints: &mut Steps<P>,
    ) -> Result<LineEnd, AllocError>
        requires frames { frames_shown self.old < 2 ^ 32 }
        requires going { IsOver self.old → ⊥ }
        requires holds { HoldsSome self.old ⟦<dyn Delegate as Delegate>⟧ }
        ensures state { (s : SessionState) → HoldsState self.old ⟦<dyn Delegate as Delegate>⟧ s
            → IfGoesOn result (HoldsState self.new ⟦<dyn Delegate as Delegate>⟧ (state_after s (step s Command.Frame))) }
        ensures text { (s : SessionState) → HoldsState self.old ⟦<dyn Delegate as Delegate>⟧ s
            → OnOk result (out.new.items ≡ out.old.items ++ text_of (step s Command.Frame)) }
        ensures end { (s : SessionState) → HoldsState self.old ⟦<dyn Delegate as Delegate>⟧ s
            → IfOk result (λ end. end ≡ end_of (step s Command.Frame)) }
        ensures unrefused { (why : Refusal) → result ≢ Ok (LineEnd.Refused why) }
        ensures work { (frames : Frames) (s : SessionState) → HoldsState self.old ⟦<dyn Delegate as Delegate>⟧ s → IsCaused frames s self.old
            → OnOk result (GoesOn frames s Command.Frame self.new layouts.old layouts.new paints.old paints.new) }
        ensures built { (s : SessionState) → HoldsState self.old ⟦<dyn Delegate as Delegate>⟧ s → OnOk result (builds.new ≤ builds.old + length (due_components s)) }
        ensures frames { frames_shown self.new ≤ frames_shown self.old + 1 }
        ensures over { IfOk result (λ end. IsOver self.new ↔ (is_fault end ≡ true)) }
        ensures still_going { OnErr result (IsOver self.new → ⊥) }
        ensures err { OnErr result (out.new.items ≡ out.old.items) }
        ensures spent { OnErr result (IsSpent self.new) }
        ensures stays_spent { IsSpent self.old → OnOk result ⊥ }
    {
        self.line(&Command::Frame, out, builds, layouts, paints)
    }

    /// The layers of the last frame; none before the first.
    pub fn layers(&self) -> Option<&Layer>
        ensures { (s : SessionState) → HoldsState self.now ⟦<dyn Delegate as Delegate>⟧ s
            → if_some result (λ l. l.now) ≡ option_map (layers_of (scale_of s.program).cell) s.shown }
    {
        self.kept.held().owner.layer()
    }

    /// The render nodes of the last frame, of which its laid tree is read.
    pub fn render(&self) -> &RenderTree
        ensures { (s : SessionState) → HoldsState self.now ⟦<dyn Delegate as Delegate>⟧ s
            → shown_laid result.now.tree ≡ option_map (λ (shown : Shown). shown.laid) s.shown }
    {
        self.kept.held().owner.render()
    }

    /// The time, in milliseconds: that of the last `at` that was accepted, and 0 before it.
    pub fn time(&self) -> u64
        ensures { (s : SessionState) → HoldsState self.now ⟦<dyn Delegate as Delegate>⟧ s → result ≡ s.time }
    {
        self.kept.held().time
    }

    /// The size of a text cell, in u.
    pub fn cell(&self) -> Size
        ensures cell { (s : SessionState) → HoldsState self.now ⟦<dyn Delegate as Delegate>⟧ s → result ≡ (scale_of s.program).cell }
        ensures width { 1 ≤ result.w }
        ensures height { 1 ≤ result.h }
        ensures lengths { HasLengths result }
    {
        self.kept.held().program.scale().cell
    }

    /// The size that the last frame had, in u; none before the first.
    pub fn shown_view(&self) -> Option<Size>
        ensures { (s : SessionState) → HoldsState self.now ⟦<dyn Delegate as Delegate>⟧ s → result ≡ view_in s.shown }
    {
        self.kept.held().owner.shown_size()
    }
}
