// Boxes with one child below them.
ghost use Rattle.std.specs.Prelude.{◌≡◌, Some};
ghost use Rattle.fx_geom.specs.Size.{HasLengths};
ghost use Rattle.delegates.specs.Meaning.{Meaning};
ghost use Rattle.delegates.specs.Table.{meant_in};
ghost use Rattle.widget_model.specs.View.{look_in};
ghost use Rattle.layout_form.specs.Fits.{FitsLayout};
ghost use Rattle.layout_form.specs.Object.{setting_of};
ghost use Rattle.layout_form.specs.Single.{around};
ghost use Rattle.kind_rules.specs.Single.{is_single};

use crate::around::{around_place, around_size};
use delegates::{Delegate, DelegateTable};
use fx_geom::{Bounds, Offset, Scale, Size};
use widget_model::Kind;

/// Whether the rule of a kind knows one child at most. It asks it in `inner_bounds`, whatever it was told, and nobody else, and
/// makes of its size what `single_made` tells, with nothing to remark.
pub fn is_single(kind: &Kind) -> bool
    ensures { result ≡ is_single (look_in kind.now) }
{
    match kind {
        Kind::SizedBox { .. }
        | Kind::ConstrainedBox { .. }
        | Kind::Padding { .. }
        | Kind::Align { .. }
        | Kind::ColoredBox { .. }
        | Kind::Opacity { .. }
        | Kind::ClipRect
        | Kind::RepaintBoundary
        | Kind::MergeSemantics
        | Kind::IntrinsicWidth
        | Kind::IntrinsicHeight
        | Kind::Offstage { .. }
        | Kind::IgnorePointer { .. }
        | Kind::AbsorbPointer { .. }
        | Kind::Detector { .. }
        | Kind::Semantics { .. }
        | Kind::ExcludeSemantics { .. }
        | Kind::CustomPaint { .. }
        | Kind::CustomLayout { .. } => true,
        Kind::Text { .. }
        | Kind::Row { .. }
        | Kind::Column { .. }
        | Kind::Wrap { .. }
        | Kind::Table { .. }
        | Kind::Stack { .. }
        | Kind::Flexible { .. }
        | Kind::Positioned { .. }
        | Kind::Viewport { .. }
        | Kind::SliverToBox
        | Kind::SliverPadding { .. }
        | Kind::SliverFixed { .. }
        | Kind::SliverLazy { .. }
        | Kind::Keep { .. }
        | Kind::Inherit { .. }
        | Kind::Use { .. } => false,
    }
}

/// The size of a box with one child, and where the child stands in it.
#[derive(Clone, Copy)]
pub struct SingleMade {
    pub size: Size,
    pub place: Offset,
}

/// What the rule of such a box makes of the size of its child.
pub fn single_made(
    kind: &Kind,
    b: Bounds,
    child: Size,
    scale: Scale,
    table: &DelegateTable,
) -> SingleMade
    requires members { FitsLayout (look_in kind.now) }
    requires child { HasLengths child }
    ensures size { result.size ≡ (around (setting_of scale (meant_in table.now ⟦<dyn Delegate as Delegate>⟧)) (look_in kind.now) b 0).size (Some child) }
    ensures place { result.place ≡ (around (setting_of scale (meant_in table.now ⟦<dyn Delegate as Delegate>⟧)) (look_in kind.now) b 0).place result.size child }
{
    let size = around_size(kind, b, Some(child), scale, table);
    SingleMade {
        size,
        place: around_place(kind, b, size, child, scale, table),
    }
}
