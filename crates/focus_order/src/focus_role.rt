// What a node is to the focus.
ghost use Rattle.std.specs.Prelude.{◌≡◌, false, if◌then◌else◌};
ghost use Rattle.screen_form.specs.declared.focus_role.FocusRole.TheVariants.{Hides};
ghost use Rattle.plain_tree.specs.declared.laid.Frame.{Frame};
ghost use Rattle.plain_tree.specs.Shown.{is_unseen};
ghost use Rattle.screen_form.specs.Hidden.{hides_below};
ghost use Rattle.screen_form.specs.FocusRole.{shown_role, focus_role};
ghost use Rattle.widget_model.specs.View.{look_in};

use plain_tree::Frame;
use screen_form::FocusRole;
use widget_model::Kind;

// What a node of each kind is, where something of it is seen.
fn kind_role(kind: &Kind) -> FocusRole
    ensures { (frame : Frame) → is_unseen frame ≡ false → result ≡ (if hides_below (look_in kind.now) frame then Hides else shown_role (look_in kind.now)) }
{
    match kind {
        Kind::Opacity { alpha: 0 } | Kind::Offstage { offstage: true } => FocusRole::Hides,
        Kind::Detector { tap: Some(_), .. } => FocusRole::TakesFocus,
        Kind::SizedBox { .. }
        | Kind::ConstrainedBox { .. }
        | Kind::Padding { .. }
        | Kind::Align { .. }
        | Kind::ColoredBox { .. }
        | Kind::Text { .. }
        | Kind::Row { .. }
        | Kind::Column { .. }
        | Kind::Wrap { .. }
        | Kind::Table { .. }
        | Kind::Stack { .. }
        | Kind::Flexible { .. }
        | Kind::Positioned { .. }
        | Kind::Opacity { .. }
        | Kind::ClipRect
        | Kind::RepaintBoundary
        | Kind::MergeSemantics
        | Kind::IntrinsicWidth
        | Kind::IntrinsicHeight
        | Kind::Offstage { .. }
        | Kind::IgnorePointer { .. }
        | Kind::AbsorbPointer { .. }
        | Kind::Detector { .. }
        | Kind::Semantics { .. }
        | Kind::ExcludeSemantics { .. }
        | Kind::CustomPaint { .. }
        | Kind::CustomLayout { .. }
        | Kind::Viewport { .. }
        | Kind::SliverToBox
        | Kind::SliverPadding { .. }
        | Kind::SliverFixed { .. }
        | Kind::SliverLazy { .. }
        | Kind::Keep { .. }
        | Kind::Inherit { .. }
        | Kind::Use { .. } => FocusRole::Passes,
    }
}

// What a node is to the focus.
pub(crate) fn focus_role(kind: &Kind, frame: Frame) -> FocusRole
    ensures { result ≡ focus_role (look_in kind.now) frame }
{
    if frame.is_unseen() {
        return FocusRole::Hides;
    }
    kind_role(kind)
}
