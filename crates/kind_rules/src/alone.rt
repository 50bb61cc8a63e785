// The bounds that the child of a kind with at most one gets (`RenderProxyBox`, `RenderShiftedBox`, `RenderConstrainedBox`).
ghost use Rattle.std.specs.Prelude.{◌≡◌};
ghost use Rattle.delegates.specs.Meaning.{Meaning};
ghost use Rattle.widget_model.specs.View.{look_in};
ghost use Rattle.layout_form.specs.Single.{sized_bounds, constrained_bounds, insets_of, as_wide, as_high, around};
ghost use Rattle.delegates.specs.Table.{meant_in};
ghost use Rattle.layout_form.specs.Object.{setting_of};

use delegates::{Delegate, DelegateTable};
use fx_geom::{Axis, Bounds, Insets, Len, Scale};
use widget_model::Kind;

pub(crate) fn sized_bounds(width: Option<u64>, height: Option<u64>) -> Bounds
    ensures { result ≡ sized_bounds width height }
{
    Bounds::normalized(
        width.unwrap_or(0),
        Len::of(width),
        height.unwrap_or(0),
        Len::of(height),
    )
}

pub(crate) fn constrained_bounds(
    min_width: u64,
    max_width: Option<u64>,
    min_height: u64,
    max_height: Option<u64>,
) -> Bounds
    ensures { result ≡ constrained_bounds min_width max_width min_height max_height }
{
    Bounds::normalized(
        min_width,
        Len::of(max_width),
        min_height,
        Len::of(max_height),
    )
}

pub(crate) fn insets_of(left: u64, top: u64, right: u64, bottom: u64) -> Insets
    ensures { result ≡ insets_of left top right bottom }
{
    Insets {
        left,
        top,
        right,
        bottom,
    }
}

fn as_wide(b: Bounds, width: u64) -> Bounds
    ensures { result ≡ as_wide b width }
{
    if b.is_tight_along(Axis::Horizontal) {
        b
    } else {
        b.tighten(Some(width), None)
    }
}

fn as_high(b: Bounds, height: u64) -> Bounds
    ensures { result ≡ as_high b height }
{
    if b.is_tight_along(Axis::Vertical) {
        b
    } else {
        b.tighten(None, Some(height))
    }
}

/// The bounds in which the child of a kind with at most one is asked, where it would like so much.
pub fn inner_bounds(
    kind: &Kind,
    b: Bounds,
    liked: u64,
    scale: Scale,
    table: &DelegateTable,
) -> Bounds
    ensures { result ≡ (around (setting_of scale (meant_in table.now ⟦<dyn Delegate as Delegate>⟧)) (look_in kind.now) b liked).inner }
{
    match kind {
        Kind::SizedBox { width, height } => sized_bounds(*width, *height).enforce(b),
        Kind::ConstrainedBox {
            min_width,
            max_width,
            min_height,
            max_height,
        } => { constrained_bounds(*min_width, *max_width, *min_height, *max_height).enforce(b) }
        Kind::Padding {
            left,
            top,
            right,
            bottom,
        } => b.deflate(insets_of(*left, *top, *right, *bottom)),
        Kind::Align { .. } => b.loosen(),
        Kind::IntrinsicWidth => as_wide(b, liked),
        Kind::IntrinsicHeight => as_high(b, liked),
        Kind::CustomLayout { delegate } => table.child_bounds(delegate.get(), b).unwrap_or(b),
        Kind::ColoredBox { .. }
        | Kind::Text { .. }
        | Kind::Row { .. }
        | Kind::Column { .. }
        | Kind::Wrap { .. }
        | Kind::Table { .. }
        | Kind::Stack { .. }
        | Kind::Flexible { .. }
        | Kind::Positioned { .. }
        | Kind::Opacity { .. }
        | Kind::ClipRect
        | Kind::RepaintBoundary
        | Kind::MergeSemantics
        | Kind::Offstage { .. }
        | Kind::IgnorePointer { .. }
        | Kind::AbsorbPointer { .. }
        | Kind::Detector { .. }
        | Kind::Semantics { .. }
        | Kind::ExcludeSemantics { .. }
        | Kind::CustomPaint { .. }
        | Kind::Viewport { .. }
        | Kind::SliverToBox
        | Kind::SliverPadding { .. }
        | Kind::SliverFixed { .. }
        | Kind::SliverLazy { .. }
        | Kind::Keep { .. }
        | Kind::Inherit { .. }
        | Kind::Use { .. } => b,
    }
}
