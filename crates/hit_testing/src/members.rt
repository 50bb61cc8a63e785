// Which gestures a point may begin.
ghost use Rattle.std.specs.Prelude.{◌≡◌, ◌++◌, Some, None, map, IfOk, OnOk, IfSome, IfNone};
ghost use Rattle.widget_model.specs.View.{look_in};
ghost use Rattle.screen_form.specs.Members.{handler_in, member_by, own_members, members_in, members_of};

use crate::asking::path_at;
use fx_expr::Handler;
use fx_geom::Offset;
use gesture_arena::{Gesture, Member};
use laid_cursor::{LaidCursor, LaidPlace};
use plain_tree::LaidNode;
use std::alloc::{AllocError, Global};
use widget_model::Kind;

/// The handler that a node of a kind has for a gesture; only a Detector has any.
pub fn handler_of(kind: &Kind, gesture: Gesture) -> Option<&Handler>
    ensures there { IfSome result (λ h. handler_in (look_in kind.now) gesture ≡ Some h.now) }
    ensures missing { IfNone result (handler_in (look_in kind.now) gesture ≡ None) }
{
    match kind {
        Kind::Detector {
            behavior: _,
            tap,
            long,
            vertical,
            horizontal,
            pan,
        } => match gesture {
            Gesture::Tap => tap.as_ref(),
            Gesture::Long => long.as_ref(),
            Gesture::Vertical => vertical.as_ref(),
            Gesture::Horizontal => horizontal.as_ref(),
            Gesture::Pan => pan.as_ref(),
        },
        Kind::SizedBox { .. }
        | Kind::ConstrainedBox { .. }
        | Kind::Padding { .. }
        | Kind::Align { .. }
        | Kind::ColoredBox { .. }
        | Kind::Text { .. }
        | Kind::Row { .. }
        | Kind::Column { .. }
        | Kind::Wrap { .. }
        | Kind::Table { .. }
        | Kind::Stack { .. }
        | Kind::Flexible { .. }
        | Kind::Positioned { .. }
        | Kind::Opacity { .. }
        | Kind::ClipRect
        | Kind::RepaintBoundary
        | Kind::MergeSemantics
        | Kind::IntrinsicWidth
        | Kind::IntrinsicHeight
        | Kind::Offstage { .. }
        | Kind::IgnorePointer { .. }
        | Kind::AbsorbPointer { .. }
        | Kind::Semantics { .. }
        | Kind::ExcludeSemantics { .. }
        | Kind::CustomPaint { .. }
        | Kind::CustomLayout { .. }
        | Kind::Viewport { .. }
        | Kind::SliverToBox
        | Kind::SliverPadding { .. }
        | Kind::SliverFixed { .. }
        | Kind::SliverLazy { .. }
        | Kind::Keep { .. }
        | Kind::Inherit { .. }
        | Kind::Use { .. } => None,
    }
}

// Adds a member for a gesture of a node, where this is the handler that the node has for it.
fn push_member(
    node: u64,
    gesture: Gesture,
    handler: &Option<Handler>,
    members: &mut Vec<Member>,
) -> Result<(), AllocError>
    ensures { OnOk result (members.new.items ≡ members.old.items ++ member_by node gesture handler.now) }
{
    if handler.is_some() {
        members.push(Member { node, gesture })?;
    }
    Ok(())
}

// Adds the members that a node gives, in the order of gestures.
fn push_members<C: LaidCursor>(node: C, members: &mut Vec<Member>) -> Result<(), AllocError>
    ensures { OnOk result (members.new.items ≡ members.old.items ++ own_members (C.stands node)) }
{
    let number = node.number();
    match node.kind() {
        Kind::Detector {
            behavior: _,
            tap,
            long,
            vertical,
            horizontal,
            pan,
        } => {
            push_member(number, Gesture::Tap, tap, members)?;
            push_member(number, Gesture::Long, long, members)?;
            push_member(number, Gesture::Vertical, vertical, members)?;
            push_member(number, Gesture::Horizontal, horizontal, members)?;
            push_member(number, Gesture::Pan, pan, members)
        }
        _ => Ok(()),
    }
}

// How many members a node gives at most.
const GESTURES: usize = 5;

/// The members of the arena of a pointer that goes down at a point of the view, in u: for each Detector of the hit path,
/// the deepest first, one for each handler that it has, in the order tap, long, vertical, horizontal, pan. The tree may be
/// kept in any way. It takes time in the laid nodes.
pub fn hit_members_from<C: LaidCursor>(
    alloc: Global,
    root: C,
    at: Offset,
) -> Result<Vec<Member>, AllocError>
    ensures { IfOk result (λ ms. ms.items ≡ members_of (C.stands root) at) }
{
    let path = path_at(alloc, root, at)?;
    let mut members = Vec::with_capacity(alloc, path.len().saturating_mul(GESTURES))?;
    for node in path.as_slice() {
        push_members(*node, &mut members)?;
    }
    Ok(members)
}

/// The members of the arena of a pointer that goes down at a point of the view, in u: for each Detector of the hit path,
/// the deepest first, one for each handler that it has, in the order tap, long, vertical, horizontal, pan. It takes time in
/// the laid nodes.
pub fn hit_members(alloc: Global, root: &LaidNode, at: Offset) -> Result<Vec<Member>, AllocError>
    ensures { IfOk result (λ ms. ms.items ≡ members_of root.now at) }
{
    hit_members_from(alloc, LaidPlace { node: root }, at)
}
