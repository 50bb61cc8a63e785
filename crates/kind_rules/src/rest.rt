// What the first answers tell, and who is asked then.
ghost use Rattle.std.specs.Prelude.{◌≡◌, ◌^◌, ◌<◌, sum, IfOk};
ghost use Rattle.widget_model.specs.View.{look_in};
ghost use Rattle.layout_form.specs.FlexRule.{factors_of};
ghost use Rattle.kind_rules.specs.Few.{items_of};
ghost use Rattle.kind_rules.specs.Asked.{found_of, found_for, rest_for};

use crate::asking::nobody;
use crate::family::Lists;
use crate::few::Few;
use crate::line::line_rest;
use crate::pile::{pile_rest, pile_size};
use crate::viewport::{view_rest, view_start};
use fx_geom::{Axis, Size};
use layout_form::Ask;
use plain_tree::{Frame, ParentData};
use std::alloc::{AllocError, Global};
use widget_model::Kind;

/// What the first answers tell: the size of a Stack, and where a Viewport stands scrolled, in u.
#[derive(Clone, Copy)]
pub struct Found {
    pub size: Size,
    pub start: u64,
}

/// What the first answers of a node tell that was scrolled so far.
pub fn findings(kind: &Kind, scroll: u64, ask: Ask, frames: &[Option<Frame>]) -> Found
    ensures { found_of result ≡ found_for (look_in kind.now) scroll ask frames.now }
{
    match (kind, ask) {
        (Kind::Stack { .. }, Ask::AsBox(b)) => Found {
            size: pile_size(b, frames),
            start: 0,
        },
        (Kind::Viewport { axis }, Ask::AsBox(b)) => Found {
            size: Size::ZERO,
            start: view_start(*axis, scroll, b, frames),
        },
        (Kind::Stack { .. } | Kind::Viewport { .. }, Ask::AsSliver(_))
        | (
            Kind::SizedBox { .. }
            | Kind::ConstrainedBox { .. }
            | Kind::Padding { .. }
            | Kind::Align { .. }
            | Kind::ColoredBox { .. }
            | Kind::Text { .. }
            | Kind::Row { .. }
            | Kind::Column { .. }
            | Kind::Wrap { .. }
            | Kind::Table { .. }
            | Kind::Flexible { .. }
            | Kind::Positioned { .. }
            | Kind::Opacity { .. }
            | Kind::ClipRect
            | Kind::RepaintBoundary
            | Kind::MergeSemantics
            | Kind::IntrinsicWidth
            | Kind::IntrinsicHeight
            | Kind::Offstage { .. }
            | Kind::IgnorePointer { .. }
            | Kind::AbsorbPointer { .. }
            | Kind::Detector { .. }
            | Kind::Semantics { .. }
            | Kind::ExcludeSemantics { .. }
            | Kind::CustomPaint { .. }
            | Kind::CustomLayout { .. }
            | Kind::SliverToBox
            | Kind::SliverPadding { .. }
            | Kind::SliverFixed { .. }
            | Kind::SliverLazy { .. }
            | Kind::Keep { .. }
            | Kind::Inherit { .. }
            | Kind::Use { .. },
            _,
        ) => Found {
            size: Size::ZERO,
            start: 0,
        },
    }
}

/// Who is asked then, by the first answers. The error is want of memory.
pub fn rest_asks(
    alloc: Global,
    kind: &Kind,
    ask: Ask,
    found: Found,
    told: &[ParentData],
    frames: &[Option<Frame>],
) -> Result<Few<Option<Ask>>, AllocError>
    requires { sum (factors_of told.now) < 2 ^ 64 }
    ensures { IfOk result (λ v. items_of v ≡ rest_for (look_in kind.now) ask (found_of found) told.now frames.now) }
{
    match ask {
        Ask::AsSliver(_) => Ok(nobody()),
        Ask::AsBox(b) => match kind {
            Kind::Row { cross, .. } => line_rest(
                alloc,
                Axis::Horizontal,
                *cross,
                b,
                Lists { told, frames },
            ),
            Kind::Column { cross, .. } => line_rest(
                alloc,
                Axis::Vertical,
                *cross,
                b,
                Lists { told, frames },
            ),
            Kind::Stack { fit, .. } => pile_rest(alloc, *fit, b, found.size, told, frames),
            Kind::Viewport { axis } => view_rest(alloc, *axis, found.start, b, frames),
            Kind::SizedBox { .. }
            | Kind::ConstrainedBox { .. }
            | Kind::Padding { .. }
            | Kind::Align { .. }
            | Kind::ColoredBox { .. }
            | Kind::Text { .. }
            | Kind::Wrap { .. }
            | Kind::Table { .. }
            | Kind::Flexible { .. }
            | Kind::Positioned { .. }
            | Kind::Opacity { .. }
            | Kind::ClipRect
            | Kind::RepaintBoundary
            | Kind::MergeSemantics
            | Kind::IntrinsicWidth
            | Kind::IntrinsicHeight
            | Kind::Offstage { .. }
            | Kind::IgnorePointer { .. }
            | Kind::AbsorbPointer { .. }
            | Kind::Detector { .. }
            | Kind::Semantics { .. }
            | Kind::ExcludeSemantics { .. }
            | Kind::CustomPaint { .. }
            | Kind::CustomLayout { .. }
            | Kind::SliverToBox
            | Kind::SliverPadding { .. }
            | Kind::SliverFixed { .. }
            | Kind::SliverLazy { .. }
            | Kind::Keep { .. }
            | Kind::Inherit { .. }
            | Kind::Use { .. } => Ok(nobody()),
        },
    }
}
