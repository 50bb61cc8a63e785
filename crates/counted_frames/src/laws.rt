// Laws of the layouts of frames whose build goes in two phases.
ghost use Rattle.std.specs.Prelude.{◌≡◌, ◌+◌, ◌*◌, ◌≤◌, ℕ, true, length};
ghost use Rattle.fx_geom.specs.declared.shapes.Size.{Size};
ghost use Rattle.node_tree.specs.Tree.{Tree};
ghost use Rattle.plain_tree.specs.Laws.{render_numbers_of, AllDiffer};
ghost use Rattle.plain_tree.specs.Render.{Render, no_renders, more_renders};
ghost use Rattle.layout_form.specs.Object.{Setting};
ghost use Rattle.kept_layouts.specs.Items.{all_without_items};
ghost use Rattle.layout_owner.specs.Roots.{IsAskedAs};
ghost use Rattle.render_tree.specs.Object.{RenderObject};
ghost use Rattle.render_tree.specs.Plain.{renders_of, root_tree};
ghost use Rattle.work_sets.specs.Before.{Before};
ghost use Rattle.work_sets.specs.Layout.{layout_region, first_region};
ghost use Rattle.counted_work.specs.Caused.{NewAreUnlaid, LayoutsAreCaused};
ghost use Rattle.counted_work.specs.Windows.{WindowsStay};
ghost use Rattle.frame_owner.specs.Working.{LaysLists, PhasedSteps};

use counted_phases::{
    differing_nodes_are_reached, first_phases_lay_out_their_region, outer_flags_have_their_region,
    phased_frames_lay_out_twice,
};
use layout_walk::rules_are_lawful;
use work_sets::same_means_equal;

/// A frame whose build goes in two phases runs no more rules of layout than twice the nodes of its layout region, where flags had causes
/// before and Viewports stay Viewports; and where the second phase has a fault, no more than the first phase's region has nodes. It does
/// nothing.
pub fn phased_layouts_keep_to_their_region()
    ensures twice { (s : Setting) (view : Size) (before : Before) (old new : Tree RenderObject) (top : Render) (lo ln po pn : ℕ)
        → PhasedSteps s view old top new lo ln po pn → LayoutsAreCaused before old → NewAreUnlaid before.frames old top
        → (before.same_view ≡ true → IsAskedAs view (root_tree old)) → WindowsStay before top → ln ≤ lo + 2 * length (layout_region before top) }
    ensures once { (s : Setting) (view : Size) (before : Before) (old : Tree RenderObject) (top : Render) (lo ln : ℕ) (lists : LaysLists s view old lo ln)
        → all_without_items (renders_of (root_tree lists.mid)) ≡ all_without_items (more_renders top no_renders) → LayoutsAreCaused before old
        → NewAreUnlaid before.frames old top → (before.same_view ≡ true → IsAskedAs view (root_tree old)) → WindowsStay before top
        → AllDiffer (render_numbers_of top) → ln ≤ lo + length (first_region before top) }
{
    same_means_equal();
    rules_are_lawful();
    phased_frames_lay_out_twice();
    outer_flags_have_their_region();
    differing_nodes_are_reached();
    first_phases_lay_out_their_region();
}
