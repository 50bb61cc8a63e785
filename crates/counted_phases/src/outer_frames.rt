// Laws of what the flush between both phases leaves: the frames of outer nodes are those that the frame ends with.
ghost use Rattle.std.specs.Prelude.{◌≡◌, ℕ, false};
ghost use Rattle.fx_geom.specs.Offset.{origin};
ghost use Rattle.fx_geom.specs.declared.shapes.Size.{Size};
ghost use Rattle.node_tree.specs.Forest.{Forest};
ghost use Rattle.node_tree.specs.Tree.{Tree};
ghost use Rattle.plain_tree.specs.Laid.{Laid, no_laids, more_laids};
ghost use Rattle.plain_tree.specs.Render.{Render, no_renders, more_renders};
ghost use Rattle.layout_form.specs.Layout.{lay_view};
ghost use Rattle.layout_form.specs.Object.{Setting};
ghost use Rattle.layout_walk.specs.Here.{HereAll, AreQuiet, outer_back};
ghost use Rattle.layout_walk.specs.Rules.{parts_of};
ghost use Rattle.layout_walk.specs.Walk.{AreCorrected};
ghost use Rattle.layout_rules.specs.Nodes.{layout_nodes};
ghost use Rattle.layout_owner.specs.Roots.{view_asks, IsPlaced};
ghost use Rattle.layout_owner.specs.Undue.{RootAsked};
ghost use Rattle.kept_layouts.specs.Items.{all_without_items, ListsUnasked};
ghost use Rattle.kept_phases.specs.Lists.{StaysBuilt, FlushesLists};
ghost use Rattle.kept_phases.specs.Parts.{RedrawsPart};
ghost use Rattle.kept_phases.specs.Redraws.{Redraws};
ghost use Rattle.render_tree.specs.Object.{RenderObject};
ghost use Rattle.render_tree.specs.Plain.{laids_of, renders_of, root_tree};
ghost use Rattle.render_sync.specs.Numbering.{NumbersDiffer};
ghost use Rattle.screen_owner.specs.Standing.{StandsAlone};
ghost use Rattle.work_sets.specs.Before.{Frames, frames_after};
ghost use Rattle.counted_work.specs.Caused.{FramesAgree, NewAreUnlaid};
ghost use Rattle.counted_phases.specs.OuterLaid.{outer_laid, outer_laids};

use layout_rules::layouts_see_render_nodes;
use layout_walk::{
    full_layout_is_of_render_nodes, offsets_may_be_corrected_early, rules_are_lawful,
    trees_answer_as_render_nodes,
};

/// What is shown after an outer flush, but for the items of lazy lists, is full layout of any tree that is the same without items: each
/// outer node stands where it stands there, and has the frame that it has there. Of a list nothing else is known; of any other node all
/// that its layout left. It does nothing.
pub fn outer_flushes_show_the_frame()
    ensures { (s : Setting) (view : Size) (old new : Forest RenderObject) (top : Render) → HereAll (parts_of s) (layout_nodes new)
        → AreQuiet (parts_of s) (outer_back (parts_of s)) (layout_nodes new) → IsPlaced new → RootAsked view (layout_nodes new)
        → AreCorrected (parts_of s) (outer_back (parts_of s)) (view_asks view) (layout_nodes old) (layout_nodes new)
        → all_without_items (renders_of old) ≡ all_without_items (more_renders top no_renders) → ListsUnasked false top
        → outer_laids (laids_of new) ≡ more_laids origin (outer_laid (lay_view s top view)) no_laids }
{
    rules_are_lawful();
    trees_answer_as_render_nodes();
    full_layout_is_of_render_nodes();
    offsets_may_be_corrected_early();
    layouts_see_render_nodes();
}

/// So once the whole build is brought, each node has the frame that the layouts so far left of its number, where the outer flush counts as
/// one that left what the frame shows, without items; and what the frame leaves in the end is the same whether that counts or not.
/// Every number of the build is a node's. It does nothing.
pub fn frames_pass_between_phases()
    ensures agree { (s : Setting) (view : Size) (frames : Frames) (old mid ranged brought : Tree RenderObject) (top : Render)
        → RedrawsPart old mid → NumbersDiffer mid → FlushesLists s view mid ranged → StaysBuilt mid ranged
        → (second : Redraws ranged brought) → NumbersDiffer second.made → StandsAlone brought → renders_of (root_tree brought) ≡ more_renders top no_renders
        → all_without_items (renders_of (root_tree mid)) ≡ all_without_items (more_renders top no_renders) → ListsUnasked false top
        → FramesAgree frames old → NewAreUnlaid frames old top → FramesAgree (frames_after (outer_laid (lay_view s top view)) frames) brought }
    ensures unlaid { (frames : Frames) (brought : Tree RenderObject) (top : Render) → StandsAlone brought → renders_of (root_tree brought) ≡ more_renders top no_renders
        → NewAreUnlaid frames brought top }
    ensures after { (l : Laid) (frames : Frames) (number : ℕ) → frames_after l (frames_after (outer_laid l) frames) number ≡ frames_after l frames number }
{
    rules_are_lawful();
    trees_answer_as_render_nodes();
    full_layout_is_of_render_nodes();
    offsets_may_be_corrected_early();
    layouts_see_render_nodes();
}
