// Laws of what flushes leave stored.
ghost use Rattle.std.specs.Prelude.{◌≡◌, ◌≤◌, ℕ, true, false, Option, Some, option_map};
ghost use Rattle.fx_geom.specs.declared.shapes.Size.{Size};
ghost use Rattle.fx_handles.specs.declared.Handle.{Handle};
ghost use Rattle.node_tree.specs.Forest.{Forest, Stands};
ghost use Rattle.node_tree.specs.Forest.Forest.{none, tree};
ghost use Rattle.node_tree.specs.Tree.{Tree, node_at};
ghost use Rattle.plain_tree.specs.Laid.{Laid};
ghost use Rattle.plain_tree.specs.Laws.{AllDiffer};
ghost use Rattle.plain_tree.specs.Render.{Render};
ghost use Rattle.layout_form.specs.Layout.{lay_view};
ghost use Rattle.layout_form.specs.Live.{lazy_view_at, live_in};
ghost use Rattle.layout_form.specs.Object.{Setting};
ghost use Rattle.render_tree.specs.Object.{RenderObject, object_look, sliver_in};
ghost use Rattle.render_tree.specs.Plain.{laid_of, laids_of, lazy_children, renders_of, root_tree};
ghost use Rattle.render_tree.specs.Tree.{object_at};
ghost use Rattle.layout_walk.specs.Items.{lists_of, lists_in};
ghost use Rattle.layout_walk.specs.Rules.{is_list, lazy_extent};
ghost use Rattle.kept_layouts.specs.Items.{without_items, ListsUnasked};
ghost use Rattle.layout_owner.specs.Calm.{IsLaidCalm};
ghost use Rattle.layout_owner.specs.Outer.{AreRanged};
ghost use Rattle.layout_owner.specs.Ranges.{lists_in_window, is_among};
ghost use Rattle.layout_owner.specs.Roots.{Good, top_render, IsAskedAs, IsPlaced};
ghost use Rattle.layout_owner.specs.Views.{view_among, IsUnnested, NumbersTell, list_numbers, live_or_nothing};

use kept_layouts::lists_lie_without_their_items;
use layout_rules::layouts_see_render_nodes;
use layout_walk::{full_layout_is_of_render_nodes, quiet_trees_show_full_layout, rules_are_lawful};

/// What is stored is full layout, between any two flushes: where a root's nodes agree with their children, nothing in the window has to
/// be laid out, and the root stands as a flush asks it, the laid tree is that of the render nodes as they are now.
pub fn calm_trees_show_full_layout()
    ensures { (s : Setting) (view : Size) (h : Handle) (o : RenderObject) (below : Forest RenderObject) → Good s (tree h o below none)
        → IsLaidCalm (tree h o below none) → IsPlaced (tree h o below none) → IsAskedAs view (tree h o below none)
        → laid_of (tree h o below none) ≡ option_map (λ x. lay_view s x view) (top_render (renders_of (tree h o below none))) }
{
    rules_are_lawful();
    quiet_trees_show_full_layout();
    full_layout_is_of_render_nodes();
    layouts_see_render_nodes();
}

/// Where no list stands among the items of another, the lists that are laid out tell the view by which the live range of a number is
/// defined: that of the last list with the number.
pub fn lists_tell_views()
    ensures { (wanted : ℕ) (l : Laid) → IsUnnested l → lazy_view_at wanted l ≡ view_among wanted (lists_of is_list l) }
{}

/// Where the lists that are laid out differ in their numbers, the view of the number of a list in the window is the one that the list
/// has stored, by which a flush gives it its live range.
pub fn listed_views_are_stored()
    ensures { (t : Tree RenderObject) (p : Option Handle) (f : Forest RenderObject) (k : Handle) (o : RenderObject) → Stands (node_at t) p f
        → AllDiffer (list_numbers (lists_in is_list (laids_of f))) → object_at t k ≡ Some o → is_among k (lists_in_window f) ≡ true
        → view_among o.number (lists_in is_list (laids_of f)) ≡ sliver_in o.frame }
{}

/// Live ranges are those of a tree without the items of lazy lists, as a build has it before it knows them. The view by number in full
/// layout of that tree is that of the lists that an outer flush lays out; and so the range that the flush stores at a list is the one
/// that full layout of that tree gives to its number, in the window or not.
pub fn items_have_no_part_in_live_ranges()
    ensures views { (s : Setting) (view : Size) (r : Render) (wanted : ℕ) → ListsUnasked false r
        → lazy_view_at wanted (lay_view s (without_items r) view) ≡ view_among wanted (lists_of is_list (lay_view s r view)) }
    ensures ranges { (s : Setting) (view : Size) (widen : ℕ) (t : Tree RenderObject) (p : Option Handle) (r : Render) (k : Handle) (o : RenderObject) (extent : ℕ)
        → Stands (node_at t) p (root_tree t) → NumbersTell t → lists_in is_list (laids_of (root_tree t)) ≡ lists_of is_list (lay_view s r view) → AreRanged widen t
        → ListsUnasked false r → object_at t k ≡ Some o → lazy_extent (object_look o) ≡ Some extent → 1 ≤ extent
        → live_or_nothing o.live ≡ live_in (lazy_view_at o.number (lay_view s (without_items r) view)) extent (lazy_children o) widen }
{
    lists_lie_without_their_items();
}
