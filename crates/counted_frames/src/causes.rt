// Laws of flags after a frame whose build goes in two phases.
ghost use Rattle.std.specs.Prelude.{◌≡◌, ℕ};
ghost use Rattle.fx_geom.specs.declared.shapes.Size.{Size};
ghost use Rattle.node_tree.specs.Tree.{Tree};
ghost use Rattle.plain_tree.specs.Render.{Render};
ghost use Rattle.layout_form.specs.Layout.{lay_view};
ghost use Rattle.layout_form.specs.Object.{Setting};
ghost use Rattle.layout_owner.specs.Roots.{top_render};
ghost use Rattle.render_tree.specs.Object.{RenderObject};
ghost use Rattle.render_tree.specs.Plain.{renders_of, root_tree};
ghost use Rattle.work_sets.specs.Before.{Before, frames_after};
ghost use Rattle.counted_work.specs.Caused.{FramesAgree, NewAreUnlaid, LayoutsAreCaused};
ghost use Rattle.counted_work.specs.Drawn.{PaintsAreCaused};
ghost use Rattle.frame_owner.specs.Working.{PhasedSteps};

use counted_phases::frames_pass_between_phases;
use counted_work::screens_keep_to_their_sets;

/// After a frame in both phases flags have causes, in the view and by the delegates of the frame, and each node has the frame that the
/// layouts so far left of its number: the layout between the phases left no other than what the frame shows. It does nothing.
pub fn phased_frames_leave_causes()
    ensures layouts { (s : Setting) (view : Size) (before : Before) (old new : Tree RenderObject) (top : Render) (lo ln po pn : ℕ) (after : Before)
        → PhasedSteps s view old top new lo ln po pn → after.tree ≡ top_render (renders_of (root_tree new))
        → after.frames ≡ frames_after (lay_view s top view) before.frames → FramesAgree before.frames old → NewAreUnlaid before.frames old top
        → LayoutsAreCaused after new }
    ensures paints { (s : Setting) (view : Size) (before : Before) (old new : Tree RenderObject) (top : Render) (lo ln po pn : ℕ) (after : Before)
        → PhasedSteps s view old top new lo ln po pn → after.tree ≡ top_render (renders_of (root_tree new))
        → after.frames ≡ frames_after (lay_view s top view) before.frames → FramesAgree before.frames old → NewAreUnlaid before.frames old top
        → PaintsAreCaused after (lay_view s top view) s.delegates new }
{
    frames_pass_between_phases();
    screens_keep_to_their_sets();
}
