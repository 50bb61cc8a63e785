// Laws of frames of a session: what they count, and what is known after them, where the build of some goes in two phases.
ghost use Rattle.std.specs.Prelude.{◌+◌, ◌≤◌, ℕ};
ghost use Rattle.node_tree.specs.Tree.{Tree};
ghost use Rattle.render_tree.specs.Object.{RenderObject};
ghost use Rattle.script_lines.specs.declared.command.Command.{Command};
ghost use Rattle.script_lines.specs.declared.command.Command.TheVariants as command;
ghost use Rattle.session_form.specs.Framing.{built_of};
ghost use Rattle.session_form.specs.State.{SessionState};
ghost use Rattle.work_sets.specs.Before.{Frames};
ghost use Rattle.work_sets.specs.Work.{frame_work};
ghost use Rattle.counted_work.specs.Known.{WorkIsCaused, WorkGoesOn};
ghost use Rattle.counted_frames.specs.Shows.{FrameGoesOn, FrameKeepsOn, FrameFaults};

use crate::causes::phased_frames_leave_causes;
use crate::laws::phased_layouts_keep_to_their_region;
use crate::paints::phased_frames_paint_their_region;
use counted_work::frames_keep_to_their_work;
use layout_form::{layout_keeps_nodes, proxies_pass_their_bounds_on, sizes_meet_bounds};
use plain_tree::fields_leave_the_projection;
use work_sets::work_is_over_the_build;

/// What a line counts and leaves, where all that is known of a frame's layouts is that they are no more than its region has nodes, is within
/// the work of a frame, which may count them twice. It does nothing.
pub fn works_are_frame_works()
    ensures { (frames : Frames) (s : SessionState) (command : Command) (t : Tree RenderObject) (lo ln po pn : ℕ)
        → WorkGoesOn frames s command t lo ln po pn → FrameKeepsOn frames s command t lo ln po pn }
{}

/// A frame counts no more layouts and paints than its work, where all was known before it; then all is known after it, of the frames that its
/// layouts left: also one whose build goes in two phases. It does nothing.
pub fn phased_frames_keep_to_their_work()
    ensures { (frames : Frames) (s : SessionState) (old new : Tree RenderObject) (lo ln po pn : ℕ)
        → FrameGoesOn (built_of s) s old new lo ln po pn → WorkIsCaused frames s old → FrameKeepsOn frames s command.Frame new lo ln po pn }
{
    frames_keep_to_their_work();
    phased_layouts_keep_to_their_region();
    phased_frames_leave_causes();
    phased_frames_paint_their_region();
    layout_keeps_nodes();
    proxies_pass_their_bounds_on();
    sizes_meet_bounds();
    fields_leave_the_projection();
    work_is_over_the_build();
}

/// A frame with a fault counts no more layouts than its work, where all was known before it. It does nothing.
pub fn frames_with_faults_keep_to_their_work()
    ensures { (frames : Frames) (s : SessionState) (old : Tree RenderObject) (lo ln : ℕ)
        → FrameFaults s old lo ln → WorkIsCaused frames s old → ln ≤ lo + (frame_work frames s).layouts }
{
    phased_layouts_keep_to_their_region();
}
