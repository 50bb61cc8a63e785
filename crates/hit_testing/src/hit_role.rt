// How nodes take part in a hit test.
ghost use Rattle.std.specs.Prelude.{◌≡◌};
ghost use Rattle.widget_model.specs.View.{look_in};
ghost use Rattle.screen_form.specs.HitRole.{detector_role, hit_role};
ghost use Rattle.hit_testing.specs.Taking.{answer_alone, is_added, answer_of};

use screen_form::HitRole;
use widget_model::{Behavior, Kind};

// What a node answers without asking its children, if it doesn't ask them.
pub(crate) fn answer_alone(role: HitRole, inside: bool) -> Option<bool>
    ensures { result ≡ answer_alone role inside }
{
    match role {
        HitRole::Ignores => Some(false),
        HitRole::Absorbs => Some(inside),
        HitRole::Opaque | HitRole::Translucent | HitRole::Defers => {
            if inside { None } else { Some(false) }
        }
    }
}

// Whether a node in which the point lies is added, where a child was hit or none was.
pub(crate) fn is_added(role: HitRole, below: bool) -> bool
    ensures { result ≡ is_added role below }
{
    match role {
        HitRole::Opaque | HitRole::Translucent => true,
        HitRole::Defers => below,
        HitRole::Ignores | HitRole::Absorbs => false,
    }
}

// What it answers then.
pub(crate) fn answer_of(role: HitRole, below: bool) -> bool
    ensures { result ≡ answer_of role below }
{
    match role {
        HitRole::Opaque | HitRole::Absorbs => true,
        HitRole::Translucent | HitRole::Defers => below,
        HitRole::Ignores => false,
    }
}

// The role of a Detector.
fn detector_role(behavior: Behavior) -> HitRole
    ensures { result ≡ detector_role behavior }
{
    match behavior {
        Behavior::Defer => HitRole::Defers,
        Behavior::Opaque => HitRole::Opaque,
        Behavior::Translucent => HitRole::Translucent,
    }
}

// The role of a node of each kind, with or without a delegate of its name.
pub(crate) fn hit_role(kind: &Kind, plugged: bool) -> HitRole
    ensures { result ≡ hit_role (look_in kind.now) plugged }
{
    match kind {
        Kind::ColoredBox { .. } | Kind::Text { .. } => HitRole::Opaque,
        Kind::CustomPaint { .. } if plugged => HitRole::Opaque,
        Kind::CustomPaint { .. } => HitRole::Defers,
        Kind::Detector { behavior, .. } => detector_role(*behavior),
        Kind::Offstage { offstage: true } | Kind::IgnorePointer { ignoring: true } => {
            HitRole::Ignores
        }
        Kind::AbsorbPointer { absorbing: true } => HitRole::Absorbs,
        Kind::Offstage { offstage: false }
        | Kind::IgnorePointer { ignoring: false }
        | Kind::AbsorbPointer { absorbing: false }
        | Kind::SizedBox { .. }
        | Kind::ConstrainedBox { .. }
        | Kind::Padding { .. }
        | Kind::Align { .. }
        | Kind::Row { .. }
        | Kind::Column { .. }
        | Kind::Wrap { .. }
        | Kind::Table { .. }
        | Kind::Stack { .. }
        | Kind::Flexible { .. }
        | Kind::Positioned { .. }
        | Kind::Opacity { .. }
        | Kind::ClipRect
        | Kind::RepaintBoundary
        | Kind::MergeSemantics
        | Kind::IntrinsicWidth
        | Kind::IntrinsicHeight
        | Kind::Semantics { .. }
        | Kind::ExcludeSemantics { .. }
        | Kind::CustomLayout { .. }
        | Kind::Viewport { .. }
        | Kind::SliverToBox
        | Kind::SliverPadding { .. }
        | Kind::SliverFixed { .. }
        | Kind::SliverLazy { .. }
        | Kind::Keep { .. }
        | Kind::Inherit { .. }
        | Kind::Use { .. } => HitRole::Defers,
    }
}
