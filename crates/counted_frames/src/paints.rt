// Laws of painting in frames whose build goes in two phases.
ghost use Rattle.std.specs.Prelude.{◌≡◌, ◌+◌, ◌≤◌, ℕ, Some, None, List, length};
ghost use Rattle.delegates.specs.Table.{Plug};
ghost use Rattle.fx_geom.specs.declared.shapes.Size.{Size};
ghost use Rattle.node_tree.specs.Tree.{Tree};
ghost use Rattle.plain_tree.specs.Laid.{Laid};
ghost use Rattle.plain_tree.specs.Render.{Render};
ghost use Rattle.layout_form.specs.Layout.{lay_view};
ghost use Rattle.layout_form.specs.Object.{Setting};
ghost use Rattle.render_tree.specs.Object.{RenderObject};
ghost use Rattle.work_sets.specs.Before.{Before};
ghost use Rattle.work_sets.specs.Paint.{Shows, paint_region};
ghost use Rattle.counted_work.specs.Drawn.{PaintsAreCaused};
ghost use Rattle.counted_work.specs.Shows.{PluggedAsBefore};
ghost use Rattle.frame_owner.specs.Working.{PhasedSteps};

use counted_phases::{outer_flushes_show_the_frame, phased_trees_paint_their_region};
use counted_work::{layouts_leave_frames, screens_keep_to_their_sets};
use layout_walk::rules_are_lawful;
use work_sets::same_means_equal;

/// A frame in both phases paints no more nodes than its paint region has, where flags had causes before; and so does the first frame.
/// It does nothing.
pub fn phased_frames_paint_their_region()
    ensures paints { (s : Setting) (view : Size) (before : Before) (old new : Tree RenderObject) (top : Render) (lo ln po pn : ℕ) (last : Laid) (then : List Plug)
        → PhasedSteps s view old top new lo ln po pn → PluggedAsBefore before.touched then s.delegates → PaintsAreCaused before last then old
        → pn ≤ po + length (paint_region before (record { before = Some last; now = lay_view s top view }) top) }
    ensures first { (s : Setting) (view : Size) (before : Before) (old new : Tree RenderObject) (top : Render) (lo ln po pn : ℕ) (shows : Shows)
        → PhasedSteps s view old top new lo ln po pn → before.tree ≡ None → pn ≤ po + length (paint_region before shows top) }
{
    outer_flushes_show_the_frame();
    phased_trees_paint_their_region();
    layouts_leave_frames();
    screens_keep_to_their_sets();
    rules_are_lawful();
    same_means_equal();
}
