// Laws of the rules.
ghost use Rattle.std.specs.Prelude.{◌≡◌, ℕ};
ghost use Rattle.fx_geom.specs.declared.shapes.Axis.{Axis};
ghost use Rattle.plain_tree.specs.Render.{Render};
ghost use Rattle.layout_form.specs.Object.{Setting, geometry_in};
ghost use Rattle.layout_form.specs.Layout.{object};
ghost use Rattle.layout_form.specs.SliverRule.{unseen};
ghost use Rattle.kind_rules.specs.Below.{laid_below, extent_below, scroll_by};

use layout_form::scroll_extents_see_nothing;

/// How far a sliver can be scrolled through follows from the extent of the box at its end, and nothing else below it.
pub fn slivers_are_measured_by_their_boxes()
    ensures { (s : Setting) (r : Render) (axis : Axis) (cross : ℕ)
        → (geometry_in ((object s r).in_view (unseen axis cross))).scroll ≡ scroll_by axis (extent_below axis (laid_below s axis cross r)) r }
{
    scroll_extents_see_nothing();
}
