// What the kinds of render nodes are to marks.
ghost use Rattle.std.specs.Prelude.{◌≡◌};
ghost use Rattle.widget_model.specs.View.{look_in};
ghost use Rattle.work_roles.specs.WorkRole.{is_intrinsic, is_offstage, is_viewport, is_repaint_boundary};
ghost use Rattle.work_roles.specs.Place.{is_sized_by_bounds, ends_layout};
ghost use Rattle.render_tree.specs.Marks.{ends_in, ends_painting};

use fx_geom::Bounds;
use widget_model::Kind;

// Whether a box asks all below it what they would like: it is an IntrinsicWidth or an IntrinsicHeight.
pub(crate) fn is_intrinsic(kind: &Kind) -> bool
    ensures { result ≡ is_intrinsic (look_in kind.now) }
{
    match kind {
        Kind::IntrinsicWidth | Kind::IntrinsicHeight => true,
        _ => false,
    }
}

// Whether it is an Offstage that is offstage.
pub(crate) fn is_offstage(kind: &Kind) -> bool
    ensures { result ≡ is_offstage (look_in kind.now) }
{
    match kind {
        Kind::Offstage { offstage } => *offstage,
        _ => false,
    }
}

// Whether it is a RepaintBoundary.
pub(crate) fn is_repaint_boundary(kind: &Kind) -> bool
    ensures { result ≡ is_repaint_boundary (look_in kind.now) }
{
    match kind {
        Kind::RepaintBoundary => true,
        _ => false,
    }
}

// Whether the size of a box follows from its bounds alone: it is a Viewport, or an Offstage that is offstage.
fn is_sized_by_bounds(kind: &Kind) -> bool
    ensures { result ≡ is_sized_by_bounds (look_in kind.now) }
{
    match kind {
        Kind::Viewport { .. } => true,
        Kind::Offstage { offstage } => *offstage,
        _ => false,
    }
}

// Whether the layout of a box in these bounds tells nothing right above it.
fn ends_layout(top: bool, below_offstage: bool, kind: &Kind, bounds: Bounds) -> bool
    ensures { result ≡ ends_layout top below_offstage (look_in kind.now) bounds }
{
    top || (bounds.is_tight() || (is_sized_by_bounds(kind) || below_offstage))
}

// Whether the layout of a node tells nothing right above it, where a box had these bounds in its last layout.
pub(crate) fn ends_in(bounds: Option<Bounds>, top: bool, below_offstage: bool, kind: &Kind) -> bool
    ensures { result ≡ ends_in bounds top below_offstage (look_in kind.now) }
{
    match bounds {
        None => false,
        Some(b) => ends_layout(top, below_offstage, kind, b),
    }
}

// Whether a node is a boundary of painting.
pub(crate) fn ends_painting(top: bool, kind: &Kind) -> bool
    ensures { result ≡ ends_painting top (look_in kind.now) }
{
    top || is_repaint_boundary(kind)
}
