// Laws of painting in a frame whose build goes in two phases.
ghost use Rattle.std.specs.Prelude.{◌≡◌, ◌+◌, ◌≤◌, ℕ, true, Some, List, length};
ghost use Rattle.delegates.specs.Table.{Plug};
ghost use Rattle.fx_geom.specs.declared.shapes.Size.{Size};
ghost use Rattle.fx_handles.specs.declared.Handle.{Handle};
ghost use Rattle.node_tree.specs.Tree.{Tree};
ghost use Rattle.plain_tree.specs.Laid.{Laid};
ghost use Rattle.plain_tree.specs.Render.{Render, no_renders, more_renders};
ghost use Rattle.layout_form.specs.Layout.{lay_view};
ghost use Rattle.layout_form.specs.Object.{Setting};
ghost use Rattle.kept_layers.specs.Steps.{painted_count};
ghost use Rattle.paint_owner.specs.Finding.{root_flag};
ghost use Rattle.render_tree.specs.Marked.{SetsMarks};
ghost use Rattle.render_tree.specs.Marks.{paint_marks};
ghost use Rattle.render_tree.specs.Object.{RenderObject};
ghost use Rattle.render_tree.specs.Plain.{renders_of, root_tree};
ghost use Rattle.screen_owner.specs.Changes.{AreKindsSo};
ghost use Rattle.screen_owner.specs.Standing.{StandsAlone};
ghost use Rattle.screen_owner.specs.Steps.{FrameSteps};
ghost use Rattle.counted_work.specs.Drawn.{PaintsAreCaused, LayoutLeaves};
ghost use Rattle.counted_work.specs.Shows.{PluggedAsBefore};
ghost use Rattle.work_sets.specs.Before.{Before};
ghost use Rattle.work_sets.specs.Paint.{paint_region};
ghost use Rattle.counted_phases.specs.Paints.{BuiltInPhases};

use counted_work::layouts_leave_frames;
use work_sets::same_means_equal;

/// A frame whose build goes in two phases paints no more nodes than its paint region has, where flags had causes before: what is marked for
/// painting between the phases looks otherwise, or differs, in the whole frame too. It does nothing.
pub fn phased_trees_paint_their_region()
    ensures painted { (before : Before) (last now_laid : Laid) (then now : List Plug) (changed : List Handle) (old brought laid new : Tree RenderObject) (top : Render)
        → BuiltInPhases old brought laid → PluggedAsBefore before.touched then now → StandsAlone old → StandsAlone laid → AreKindsSo old top → PaintsAreCaused before last then old
        → renders_of (root_tree brought) ≡ more_renders top no_renders → LayoutLeaves now_laid now changed brought laid → SetsMarks paint_marks true changed laid new
        → painted_count (root_flag (root_tree new)) (root_tree new) ≤ length (paint_region before (record { before = Some last; now = now_laid }) top) }
    ensures frames { (s : Setting) (view : Size) (before : Before) (old brought new : Tree RenderObject) (top : Render) (lo ln po pn : ℕ) (last : Laid) (then : List Plug) (steps : FrameSteps s view brought top new lo ln po pn)
        → BuiltInPhases old steps.brought steps.lays.laid → PluggedAsBefore before.touched then s.delegates → StandsAlone old → AreKindsSo old top → PaintsAreCaused before last then old
        → pn ≤ po + length (paint_region before (record { before = Some last; now = lay_view s top view }) top) }
{
    same_means_equal();
    layouts_leave_frames();
}
