// What the child of an IntrinsicWidth or an IntrinsicHeight would like.
ghost use Rattle.std.specs.Prelude.{◌≡◌, map, List, IfOk};
ghost use Rattle.delegates.specs.Table.{Plug};
ghost use Rattle.widget_model.specs.View.{look_in};
ghost use Rattle.layout_form.specs.Fits.{CanBeLaidOut};
ghost use Rattle.layout_form.specs.Object.{setting_of, only_of};
ghost use Rattle.layout_form.specs.Layout.{object};
ghost use Rattle.kind_rules.specs.Cursor.{children_of};
ghost use Rattle.kind_rules.specs.Asked.{liked_for};

use crate::cursor::Cursor;
use crate::intrinsic::child_greatest;
use fx_geom::{Axis, Scale};
use layout_form::Ask;
use std::alloc::{AllocError, Global};
use widget_model::Kind;

/// The extent that the child of an IntrinsicWidth or an IntrinsicHeight would like; nobody else asks for it.
pub fn liked_for<C: Cursor>(
    alloc: Global,
    kind: &Kind,
    ask: Ask,
    cursor: C,
    scale: Scale,
) -> Result<u64, AllocError>
    requires { CanBeLaidOut (C.stands cursor) }
    ensures { IfOk result (λ n. (ds : List Plug) → n ≡ liked_for (look_in kind.now) ask (only_of (map (object (setting_of scale ds)) (children_of (C.stands cursor))))) }
{
    match (kind, ask) {
        (Kind::IntrinsicWidth, Ask::AsBox(b)) => child_greatest(
            alloc,
            cursor,
            Axis::Horizontal,
            b.max_h,
            scale,
        ),
        (Kind::IntrinsicHeight, Ask::AsBox(b)) => child_greatest(
            alloc,
            cursor,
            Axis::Vertical,
            b.max_w,
            scale,
        ),
        (Kind::IntrinsicWidth | Kind::IntrinsicHeight, Ask::AsSliver(_))
        | (
            Kind::SizedBox { .. }
            | Kind::ConstrainedBox { .. }
            | Kind::Padding { .. }
            | Kind::Align { .. }
            | Kind::ColoredBox { .. }
            | Kind::Text { .. }
            | Kind::Row { .. }
            | Kind::Column { .. }
            | Kind::Wrap { .. }
            | Kind::Table { .. }
            | Kind::Stack { .. }
            | Kind::Flexible { .. }
            | Kind::Positioned { .. }
            | Kind::Opacity { .. }
            | Kind::ClipRect
            | Kind::RepaintBoundary
            | Kind::MergeSemantics
            | Kind::Offstage { .. }
            | Kind::IgnorePointer { .. }
            | Kind::AbsorbPointer { .. }
            | Kind::Detector { .. }
            | Kind::Semantics { .. }
            | Kind::ExcludeSemantics { .. }
            | Kind::CustomPaint { .. }
            | Kind::CustomLayout { .. }
            | Kind::Viewport { .. }
            | Kind::SliverToBox
            | Kind::SliverPadding { .. }
            | Kind::SliverFixed { .. }
            | Kind::SliverLazy { .. }
            | Kind::Keep { .. }
            | Kind::Inherit { .. }
            | Kind::Use { .. },
            _,
        ) => Ok(0),
    }
}
