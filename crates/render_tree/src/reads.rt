// What a layout, and what painting, reads of two widgets: whether it is the same.
ghost use Rattle.std.specs.Prelude.{◌≡◌, ◌↔◌, ◌&&◌, ◌||◌, IsTrue, true};
ghost use Rattle.widget_model.specs.View.{look_in};
ghost use Rattle.plain_tree.specs.RenderRole.{render_role_of};
ghost use Rattle.plain_tree.specs.Render.{lazy_count};
ghost use Rattle.work_roles.specs.ForLayout.{for_layout};
ghost use Rattle.work_roles.specs.WorkRole.{is_viewport};
ghost use Rattle.render_tree.specs.Unread.{is_coloured, is_pointed, is_said};

use fx_geom::Placed;
use plain_tree::ParentData;
use widget_model::{Kind, Widget, same_look};

fn is_coloured(kind: &Kind) -> bool
    ensures { result ≡ is_coloured (look_in kind.now) }
{
    match kind {
        Kind::ColoredBox { .. } | Kind::Text { .. } | Kind::Opacity { .. } => true,
        _ => false,
    }
}

fn is_pointed(kind: &Kind) -> bool
    ensures { result ≡ is_pointed (look_in kind.now) }
{
    match kind {
        Kind::IgnorePointer { .. } | Kind::AbsorbPointer { .. } | Kind::Detector { .. } => true,
        _ => false,
    }
}

fn is_said(kind: &Kind) -> bool
    ensures { result ≡ is_said (look_in kind.now) }
{
    match kind {
        Kind::Semantics { .. } | Kind::ExcludeSemantics { .. } => true,
        _ => false,
    }
}

// Of kinds with a colour.
fn same_coloured(a: &Kind, b: &Kind) -> bool
    requires { is_coloured (look_in a.now) ≡ true }
    ensures { IsTrue result ↔ (for_layout (look_in a.now) ≡ for_layout (look_in b.now)) }
{
    match (a, b) {
        (Kind::ColoredBox { .. }, Kind::ColoredBox { .. }) => true,
        (Kind::Text { text, .. }, Kind::Text { text: other, .. }) => text == other,
        (Kind::Opacity { .. }, Kind::Opacity { .. }) => true,
        _ => false,
    }
}

// Of kinds that pointers meet.
fn same_pointed(a: &Kind, b: &Kind) -> bool
    requires { is_pointed (look_in a.now) ≡ true }
    ensures { IsTrue result ↔ (for_layout (look_in a.now) ≡ for_layout (look_in b.now)) }
{
    match (a, b) {
        (Kind::IgnorePointer { .. }, Kind::IgnorePointer { .. }) => true,
        (Kind::AbsorbPointer { .. }, Kind::AbsorbPointer { .. }) => true,
        (Kind::Detector { .. }, Kind::Detector { .. }) => true,
        _ => false,
    }
}

// Of kinds that say something to a reader of the screen.
fn same_said(a: &Kind, b: &Kind) -> bool
    requires { is_said (look_in a.now) ≡ true }
    ensures { IsTrue result ↔ (for_layout (look_in a.now) ≡ for_layout (look_in b.now)) }
{
    match (a, b) {
        (Kind::Semantics { .. }, Kind::Semantics { .. }) => true,
        (Kind::ExcludeSemantics { .. }, Kind::ExcludeSemantics { .. }) => true,
        _ => false,
    }
}

// Whether a layout reads the same of two kinds.
pub(crate) fn is_same_for_layout(a: &Kind, b: &Kind) -> bool
    ensures { IsTrue result ↔ (for_layout (look_in a.now) ≡ for_layout (look_in b.now)) }
{
    if is_coloured(a) {
        return same_coloured(a, b);
    }
    if is_pointed(a) {
        return same_pointed(a, b);
    }
    if is_said(a) {
        return same_said(a, b);
    }
    same_look(a, b)
}

// The number of child widgets of a SliverLazy, 0 of any other kind.
pub(crate) fn lazy_count(widget: &Widget) -> u64
    ensures { result ≡ lazy_count (render_role_of (look_in widget.now.kind)) widget.now.children }
{
    match &widget.kind {
        Kind::SliverLazy { .. } => widget.children.get().len() as u64,
        _ => 0,
    }
}

// Whether it is a Viewport.
pub(crate) fn scrolls(kind: &Kind) -> bool
    ensures { result ≡ is_viewport (look_in kind.now) }
{
    match kind {
        Kind::Viewport { .. } => true,
        _ => false,
    }
}

// Whether two children of a Stack stand at the same place.
fn is_same_place(a: Placed, b: Placed) -> bool
    ensures { IsTrue result ↔ (a ≡ b) }
{
    is_same_pair((a.left, a.right), (b.left, b.right))
        && is_same_pair((a.top, a.bottom), (b.top, b.bottom))
        && a.width == b.width
        && a.height == b.height
}

// Whether two pairs of edges are the same.
fn is_same_pair(a: (Option<i64>, Option<i64>), b: (Option<i64>, Option<i64>)) -> bool
    ensures { IsTrue result ↔ (a ≡ b) }
{
    a.0 == b.0 && a.1 == b.1
}

// So it is of children that may be placed, or not.
fn is_same_placed(a: Option<Placed>, b: Option<Placed>) -> bool
    ensures { IsTrue result ↔ (a ≡ b) }
{
    match (a, b) {
        (None, None) => true,
        (Some(x), Some(y)) => is_same_place(x, y),
        _ => false,
    }
}

// Whether the widgets between two nodes and their parents say the same.
pub(crate) fn is_same_data(a: ParentData, b: ParentData) -> bool
    ensures { IsTrue result ↔ (a ≡ b) }
{
    let flex = a.flex == b.flex;
    let tight = a.tight == b.tight;
    let placed = is_same_placed(a.placed, b.placed);
    let index = a.index == b.index;
    all_four(flex, tight, placed, index)
}

// Whether both are so.
pub(crate) fn both(a: bool, b: bool) -> bool
    ensures { result ≡ (a && b) }
{
    a && b
}

// Whether one of them is so.
pub(crate) fn either(a: bool, b: bool) -> bool
    ensures { result ≡ (a || b) }
{
    a || b
}

// Whether all four are so.
pub(crate) fn all_four(a: bool, b: bool, c: bool, d: bool) -> bool
    ensures { result ≡ (a && (b && (c && d))) }
{
    a && (b && (c && d))
}
