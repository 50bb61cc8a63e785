// Laws of what is known between two lines of a session, and of what its lines count.
ghost use Rattle.std.specs.Prelude.{◌≡◌, ℕ, ℤ, true, None, List};
ghost use Rattle.delegates.specs.Table.{Plug};
ghost use Rattle.fx_handles.specs.declared.Handle.{Handle};
ghost use Rattle.node_tree.specs.Tree.{Tree};
ghost use Rattle.plain_tree.specs.Render.{no_renders};
ghost use Rattle.program_check.specs.Checked.{PlainChecked};
ghost use Rattle.render_tree.specs.Object.{RenderObject};
ghost use Rattle.render_tree.specs.Plain.{renders_of, root_tree};
ghost use Rattle.render_tree.specs.Tree.{object_at};
ghost use Rattle.script_lines.specs.declared.command.Command.{Command};
ghost use Rattle.script_lines.specs.declared.command.Command.TheVariants as command;
ghost use Rattle.session_form.specs.Changing.{scroll_line, delegate_line, unplug_line};
ghost use Rattle.session_form.specs.Framing.{built_of};
ghost use Rattle.session_form.specs.Outcome.{state_after};
ghost use Rattle.session_form.specs.State.{SessionState, first_state};
ghost use Rattle.session_form.specs.Step.{step};
ghost use Rattle.work_sets.specs.Before.{Frames};
ghost use Rattle.work_sets.specs.Work.{frames_then};
ghost use Rattle.counted_work.specs.Known.{no_frames, WorkIsCaused, WorkGoesOn, touches_nothing, IsDrawn, ScrollGoes, DelegateGoes, FrameGoes};

use crate::screens::{screens_keep_causes, screens_keep_to_their_sets};
use layout_form::{layout_keeps_nodes, proxies_pass_their_bounds_on, sizes_meet_bounds};
use plain_tree::fields_leave_the_projection;
use work_sets::work_is_over_the_build;

/// Before the first line, where no node was ever laid out, all is known. It does nothing.
pub fn sessions_begin_with_causes()
    ensures { (program : PlainChecked) (delegates : List Plug) (t : Tree RenderObject) → ((k : Handle) → object_at t k ≡ None) → renders_of (root_tree t) ≡ no_renders
        → WorkIsCaused no_frames (first_state program delegates) t }
{
    screens_keep_causes();
}

/// What is known stays known where a line touches nothing and leaves the render nodes, where `scroll` marks its Viewport, and where a
/// line of a delegate marks its users. It does nothing.
pub fn lines_keep_causes()
    ensures quiet { (frames : Frames) (s : SessionState) (command : Command) (t : Tree RenderObject) → touches_nothing command ≡ true → WorkIsCaused frames s t
        → WorkIsCaused (frames_then (state_after s (step s command)).shown frames) (state_after s (step s command)) t }
    ensures frames { (frames : Frames) (s : SessionState) (command : Command) (t : Tree RenderObject) → touches_nothing command ≡ true → WorkIsCaused frames s t
        → frames_then (state_after s (step s command)).shown frames ≡ frames }
    ensures scrolls { (frames : Frames) (s : SessionState) (number : ℕ) (by : ℤ) (old new : Tree RenderObject) → ScrollGoes number (scroll_line number by s) s old new
        → IsDrawn (state_after s (scroll_line number by s)) new → WorkIsCaused frames s old
        → WorkIsCaused (frames_then (state_after s (scroll_line number by s)).shown frames) (state_after s (scroll_line number by s)) new }
    ensures delegates { (frames : Frames) (s : SessionState) (name field : List ℕ) (n : ℤ) (old new : Tree RenderObject) → DelegateGoes name (delegate_line name field n s) s old new
        → IsDrawn (state_after s (delegate_line name field n s)) new → WorkIsCaused frames s old
        → WorkIsCaused (frames_then (state_after s (delegate_line name field n s)).shown frames) (state_after s (delegate_line name field n s)) new }
    ensures unplugs { (frames : Frames) (s : SessionState) (name : List ℕ) (old new : Tree RenderObject) → DelegateGoes name (unplug_line name s) s old new
        → IsDrawn (state_after s (unplug_line name s)) new → WorkIsCaused frames s old
        → WorkIsCaused (frames_then (state_after s (unplug_line name s)).shown frames) (state_after s (unplug_line name s)) new }
{
    screens_keep_causes();
    fields_leave_the_projection();
}

/// A frame counts no more layouts than its layout region has nodes, and no more paints than its paint region, where all was known before
/// it; then all is known after it, of the frames that its layout left. Where its build has a fault nothing is counted. It does nothing.
pub fn frames_keep_to_their_work()
    ensures { (frames : Frames) (s : SessionState) (old new : Tree RenderObject) (layouts_before layouts_after paints_before paints_after : ℕ)
        → FrameGoes (built_of s) s old new layouts_before layouts_after paints_before paints_after → WorkIsCaused frames s old
        → WorkGoesOn frames s command.Frame new layouts_before layouts_after paints_before paints_after }
{
    screens_keep_to_their_sets();
    layout_keeps_nodes();
    proxies_pass_their_bounds_on();
    sizes_meet_bounds();
    fields_leave_the_projection();
    work_is_over_the_build();
}
