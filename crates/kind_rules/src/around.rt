// The size of a box with at most one child, and where the child stands.
ghost use Rattle.std.specs.Prelude.{◌≡◌, unwrap_or};
ghost use Rattle.std.specs.List.{All};
ghost use Rattle.std.specs.Option.{ForSome};
ghost use Rattle.fx_geom.specs.Size.{HasLengths};
ghost use Rattle.delegates.specs.Meaning.{Meaning};
ghost use Rattle.widget_model.specs.View.{look_in};
ghost use Rattle.layout_form.specs.Fits.{FitsLayout};
ghost use Rattle.layout_form.specs.Single.{filling, own_size_by, delegated_size_by, placed_by, around};
ghost use Rattle.layout_form.specs.Frames.{frames_given, sizes_by, single_makes};
ghost use Rattle.kind_rules.specs.Ruling.{ruling_of, box_ruling};
ghost use Rattle.delegates.specs.Table.{meant_in};
ghost use Rattle.layout_form.specs.Object.{setting_of};

use crate::alone::{constrained_bounds, insets_of, sized_bounds};
use crate::few::Few;
use crate::made::{Made, sized};
use crate::reading::first_frame;
use delegates::{Delegate, DelegateTable};
use flex_layout::align_at;
use fx_geom::{Bounds, Offset, Scale, Size};
use plain_tree::Frame;
use widget_model::Kind;

// Each axis of the bounds is the maximum where it is bounded, else the child's extent.
fn filling(b: Bounds, child: Size) -> Size
    ensures value { result ≡ filling b child }
    ensures lengths { HasLengths result }
{
    b.constrain(Size {
        w: b.max_w.finite_or(child.w),
        h: b.max_h.finite_or(child.h),
    })
}

// The child's size, or that of the box alone.
fn size_or(child: Option<Size>, alone: Size) -> Size
    requires child { ForSome child HasLengths }
    requires alone { HasLengths alone }
    ensures value { result ≡ unwrap_or child alone }
    ensures lengths { HasLengths result }
{
    match child {
        None => alone,
        Some(size) => size,
    }
}

// The size that a CustomLayout's delegate gives it, and else a proxy's.
fn delegated_size(own: Option<Size>, b: Bounds, child: Option<Size>) -> Size
    requires { ForSome child HasLengths }
    ensures value { result ≡ delegated_size_by own b child }
    ensures lengths { HasLengths result }
{
    match own {
        None => size_or(child, b.smallest()),
        Some(own) => b.constrain(own),
    }
}

// The size that a CustomPaint takes where it has no child.
fn own_size_by(own: Option<Size>, b: Bounds) -> Size
    ensures value { result ≡ own_size_by own b }
    ensures lengths { HasLengths result }
{
    match own {
        None => b.smallest(),
        Some(own) => b.constrain(own),
    }
}

// The size of the box, by its child's.
pub(crate) fn around_size(
    kind: &Kind,
    b: Bounds,
    child: Option<Size>,
    scale: Scale,
    table: &DelegateTable,
) -> Size
    requires { ForSome child HasLengths }
    ensures value { result ≡ (around (setting_of scale (meant_in table.now ⟦<dyn Delegate as Delegate>⟧)) (look_in kind.now) b 0).size child }
    ensures lengths { HasLengths result }
{
    match kind {
        Kind::SizedBox { width, height } => {
            let own = sized_bounds(*width, *height).enforce(b);
            size_or(child, own.constrain(Size::ZERO))
        }
        Kind::ConstrainedBox {
            min_width,
            max_width,
            min_height,
            max_height,
        } => {
            let own = constrained_bounds(*min_width, *max_width, *min_height, *max_height);
            size_or(child, own.enforce(b).constrain(Size::ZERO))
        }
        Kind::Padding {
            left,
            top,
            right,
            bottom,
        } => {
            let insets = insets_of(*left, *top, *right, *bottom);
            b.constrain(insets.inflate(child.unwrap_or(Size::ZERO)))
        }
        Kind::Align { .. } => filling(b, child.unwrap_or(Size::ZERO)),
        Kind::Offstage { offstage: true } => b.smallest(),
        Kind::CustomPaint { delegate } => {
            size_or(child, own_size_by(table.own_size(delegate.get(), b), b))
        }
        Kind::CustomLayout { delegate } => {
            delegated_size(table.own_size(delegate.get(), b), b, child)
        }
        Kind::ColoredBox { .. }
        | Kind::Text { .. }
        | Kind::Row { .. }
        | Kind::Column { .. }
        | Kind::Wrap { .. }
        | Kind::Table { .. }
        | Kind::Stack { .. }
        | Kind::Flexible { .. }
        | Kind::Positioned { .. }
        | Kind::Opacity { .. }
        | Kind::ClipRect
        | Kind::RepaintBoundary
        | Kind::MergeSemantics
        | Kind::IntrinsicWidth
        | Kind::IntrinsicHeight
        | Kind::Offstage { offstage: false }
        | Kind::IgnorePointer { .. }
        | Kind::AbsorbPointer { .. }
        | Kind::Detector { .. }
        | Kind::Semantics { .. }
        | Kind::ExcludeSemantics { .. }
        | Kind::Viewport { .. }
        | Kind::SliverToBox
        | Kind::SliverPadding { .. }
        | Kind::SliverFixed { .. }
        | Kind::SliverLazy { .. }
        | Kind::Keep { .. }
        | Kind::Inherit { .. }
        | Kind::Use { .. } => size_or(child, b.smallest()),
    }
}

// Where the child stands, by both sizes.
pub(crate) fn around_place(
    kind: &Kind,
    b: Bounds,
    size: Size,
    child: Size,
    scale: Scale,
    table: &DelegateTable,
) -> Offset
    requires members { FitsLayout (look_in kind.now) }
    requires size { HasLengths size }
    requires child { HasLengths child }
    ensures { result ≡ (around (setting_of scale (meant_in table.now ⟦<dyn Delegate as Delegate>⟧)) (look_in kind.now) b 0).place size child }
{
    match kind {
        Kind::Padding {
            left,
            top,
            right,
            bottom,
        } => insets_of(*left, *top, *right, *bottom).top_left(),
        Kind::Align { ax, ay } => Offset {
            x: align_at(size.w, child.w, *ax),
            y: align_at(size.h, child.h, *ay),
        },
        Kind::CustomLayout { delegate } => placed_by(table.place(delegate.get(), size, child)),
        Kind::SizedBox { .. }
        | Kind::ConstrainedBox { .. }
        | Kind::ColoredBox { .. }
        | Kind::Text { .. }
        | Kind::Row { .. }
        | Kind::Column { .. }
        | Kind::Wrap { .. }
        | Kind::Table { .. }
        | Kind::Stack { .. }
        | Kind::Flexible { .. }
        | Kind::Positioned { .. }
        | Kind::Opacity { .. }
        | Kind::ClipRect
        | Kind::RepaintBoundary
        | Kind::MergeSemantics
        | Kind::IntrinsicWidth
        | Kind::IntrinsicHeight
        | Kind::Offstage { .. }
        | Kind::IgnorePointer { .. }
        | Kind::AbsorbPointer { .. }
        | Kind::Detector { .. }
        | Kind::Semantics { .. }
        | Kind::ExcludeSemantics { .. }
        | Kind::CustomPaint { .. }
        | Kind::Viewport { .. }
        | Kind::SliverToBox
        | Kind::SliverPadding { .. }
        | Kind::SliverFixed { .. }
        | Kind::SliverLazy { .. }
        | Kind::Keep { .. }
        | Kind::Inherit { .. }
        | Kind::Use { .. } => Offset::ZERO,
    }
}

// The place that a CustomLayout's delegate gives, and else a proxy's.
fn placed_by(place: Option<Offset>) -> Offset
    ensures { result ≡ placed_by place }
{
    match place {
        None => Offset::ZERO,
        Some(place) => place.clamped(),
    }
}

// What comes of the child's frame, if there is one.
pub(crate) fn alone_made(
    kind: &Kind,
    b: Bounds,
    frames: &[Option<Frame>],
    scale: Scale,
    table: &DelegateTable,
) -> Made
    requires members { FitsLayout (look_in kind.now) }
    requires sizes { All HasLengths (sizes_by (frames_given frames.now)) }
    ensures { ruling_of result
        ≡ box_ruling b (single_makes (around (setting_of scale (meant_in table.now ⟦<dyn Delegate as Delegate>⟧)) (look_in kind.now) b 0) (frames_given frames.now)) }
{
    match first_frame(frames) {
        None => sized(b, around_size(kind, b, None, scale, table), Few::Empty),
        Some(frame) => {
            let inner = frame.box_size();
            let size = around_size(kind, b, Some(inner), scale, table);
            sized(
                b,
                size,
                Few::Alone(around_place(kind, b, size, inner, scale, table)),
            )
        }
    }
}
