// Laws of what a screen counts in a frame, and of what is known of its flags between frames: from what its calls promise alone.
ghost use Rattle.std.specs.Prelude.{◌≡◌, ◌+◌, ◌≤◌, ℕ, true, Some, None, List, length};
ghost use Rattle.delegates.specs.Table.{Plug};
ghost use Rattle.fx_geom.specs.declared.shapes.Size.{Size};
ghost use Rattle.fx_handles.specs.declared.Handle.{Handle};
ghost use Rattle.node_tree.specs.Tree.{Tree};
ghost use Rattle.plain_tree.specs.Laid.{Laid};
ghost use Rattle.plain_tree.specs.Render.{Render, no_renders};
ghost use Rattle.session_form.specs.State.{delegate, viewport};
ghost use Rattle.work_sets.specs.Before.{Before, frames_after};
ghost use Rattle.work_sets.specs.Layout.{layout_region};
ghost use Rattle.work_sets.specs.Paint.{Shows, paint_region};
ghost use Rattle.layout_form.specs.Layout.{lay_view};
ghost use Rattle.layout_form.specs.Object.{Setting};
ghost use Rattle.layout_owner.specs.Roots.{top_render, IsAskedAs};
ghost use Rattle.render_tree.specs.Object.{RenderObject};
ghost use Rattle.render_tree.specs.Plain.{renders_of, root_tree};
ghost use Rattle.render_tree.specs.Tree.{object_at};
ghost use Rattle.screen_owner.specs.Changes.{MarksScrolled, MarksUsers};
ghost use Rattle.screen_owner.specs.Standing.{StandsAlone};
ghost use Rattle.screen_owner.specs.Steps.{FrameSteps};
ghost use Rattle.counted_work.specs.Caused.{FramesAgree, NewAreUnlaid, LayoutsAreCaused};
ghost use Rattle.counted_work.specs.Drawn.{PaintsAreCaused};
ghost use Rattle.counted_work.specs.Shows.{PluggedAsBefore};
ghost use Rattle.counted_work.specs.Touches.{Touches};
ghost use Rattle.counted_work.specs.Windows.{WindowsStay};

use layout_walk::flushes_run_what_is_due;
use work_sets::same_means_equal;

/// A frame of a screen runs no more rules of layout than the layout region of the frame has nodes, and paints no more nodes than its
/// paint region has, where flags had causes before and Viewports stay Viewports: in the first frame each node counts. And flags have causes after it, in the view
/// and by the delegates of the frame. It does nothing.
pub fn screens_keep_to_their_sets()
    ensures layouts { (s : Setting) (view : Size) (before : Before) (old new : Tree RenderObject) (top : Render) (lo ln po pn : ℕ)
        → FrameSteps s view old top new lo ln po pn → LayoutsAreCaused before old → NewAreUnlaid before.frames old top
        → (before.same_view ≡ true → IsAskedAs view (root_tree old)) → WindowsStay before top → ln ≤ lo + length (layout_region before top) }
    ensures paints { (s : Setting) (view : Size) (before : Before) (old new : Tree RenderObject) (top : Render) (lo ln po pn : ℕ) (last : Laid) (then : List Plug)
        → FrameSteps s view old top new lo ln po pn → PluggedAsBefore before.touched then s.delegates → PaintsAreCaused before last then old
        → pn ≤ po + length (paint_region before (record { before = Some last; now = lay_view s top view }) top) }
    ensures first_paints { (s : Setting) (view : Size) (before : Before) (old new : Tree RenderObject) (top : Render) (lo ln po pn : ℕ) (shows : Shows)
        → FrameSteps s view old top new lo ln po pn → before.tree ≡ None → pn ≤ po + length (paint_region before shows top) }
    ensures layout_causes { (s : Setting) (view : Size) (before : Before) (old new : Tree RenderObject) (top : Render) (lo ln po pn : ℕ) (after : Before)
        → FrameSteps s view old top new lo ln po pn → after.tree ≡ top_render (renders_of (root_tree new))
        → after.frames ≡ frames_after (lay_view s top view) before.frames → FramesAgree before.frames old → NewAreUnlaid before.frames old top
        → LayoutsAreCaused after new }
    ensures paint_causes { (s : Setting) (view : Size) (before : Before) (old new : Tree RenderObject) (top : Render) (lo ln po pn : ℕ) (after : Before)
        → FrameSteps s view old top new lo ln po pn → after.tree ≡ top_render (renders_of (root_tree new))
        → after.frames ≡ frames_after (lay_view s top view) before.frames → FramesAgree before.frames old → NewAreUnlaid before.frames old top
        → PaintsAreCaused after (lay_view s top view) s.delegates new }
{
    flushes_run_what_is_due();
    same_means_equal();
}

/// Before its first frame the flags of a screen have causes, and where one of its Viewports is scrolled, or the users of a delegate are
/// marked, they have causes again: what the line touched is one. And the root stays asked as a view is large. It does nothing.
pub fn screens_keep_causes()
    ensures starts { (before : Before) (t : Tree RenderObject) → ((k : Handle) → object_at t k ≡ None) → renders_of (root_tree t) ≡ no_renders
        → before.tree ≡ None → LayoutsAreCaused before t }
    ensures scrolls { (before after : Before) (number scroll : ℕ) (old new : Tree RenderObject) → MarksScrolled number scroll old new → StandsAlone old
        → Touches (viewport number) before after new → LayoutsAreCaused before old → LayoutsAreCaused after new }
    ensures scrolls_paints { (before after : Before) (last : Laid) (then : List Plug) (number scroll : ℕ) (old new : Tree RenderObject)
        → MarksScrolled number scroll old new → StandsAlone old → Touches (viewport number) before after new
        → PaintsAreCaused before last then old → PaintsAreCaused after last then new }
    ensures scrolls_asked { (view : Size) (number scroll : ℕ) (old new : Tree RenderObject) → MarksScrolled number scroll old new → StandsAlone old
        → IsAskedAs view (root_tree old) → IsAskedAs view (root_tree new) }
    ensures users { (before after : Before) (name : List ℕ) (old new : Tree RenderObject) → MarksUsers name old new → StandsAlone old
        → Touches (delegate name) before after new → LayoutsAreCaused before old → LayoutsAreCaused after new }
    ensures users_paints { (before after : Before) (last : Laid) (then : List Plug) (name : List ℕ) (old new : Tree RenderObject)
        → MarksUsers name old new → StandsAlone old → Touches (delegate name) before after new
        → PaintsAreCaused before last then old → PaintsAreCaused after last then new }
    ensures users_asked { (view : Size) (name : List ℕ) (old new : Tree RenderObject) → MarksUsers name old new → StandsAlone old
        → IsAskedAs view (root_tree old) → IsAskedAs view (root_tree new) }
{}
