// What a node is to the semantics tree.
ghost use Rattle.std.specs.Prelude.{◌≡◌, false, if◌then◌else◌};
ghost use Rattle.plain_tree.specs.declared.laid.Frame.{Frame};
ghost use Rattle.plain_tree.specs.Shown.{is_unseen};
ghost use Rattle.screen_form.specs.Hidden.{hides_below};
ghost use Rattle.screen_form.specs.SemanticsRole.{hides, shown_role, semantics_role};
ghost use Rattle.semantics_tree.specs.Forming.{seen};
ghost use Rattle.widget_model.specs.View.{look_in};

use plain_tree::Frame;
use widget_model::Kind;

// What a node is to the semantics tree.
#[derive(Clone, Copy)]
pub(crate) enum SemanticsRole<'a> {
    // It hides itself and all below it.
    Hides,
    // It says a label, which may be empty, and whether it is a button, and passes on what is below it.
    Says {
        label: &'a str,
        button: bool,
    },
    // It says the same and forms a semantics node, which may do a tap and a long press.
    Forms {
        label: &'a str,
        button: bool,
        tap: bool,
        long: bool,
    },
    // It forms a semantics node of all that is below it.
    Merges,
}

// What a node of each kind is, where something of it is seen.
fn kind_role(kind: &Kind) -> SemanticsRole<'_>
    ensures { (frame : Frame) → is_unseen frame ≡ false → seen result ≡ (if hides_below (look_in kind.now) frame then hides else shown_role (look_in kind.now)) }
{
    match kind {
        Kind::Text { text, .. } => SemanticsRole::Says {
            label: text.get(),
            button: false,
        },
        Kind::Semantics {
            label,
            button,
            container: false,
        } => SemanticsRole::Says {
            label: label.get(),
            button: *button,
        },
        Kind::Semantics {
            label,
            button,
            container: true,
        } => SemanticsRole::Forms {
            label: label.get(),
            button: *button,
            tap: false,
            long: false,
        },
        Kind::Detector { tap, long, .. } if tap.is_some() || long.is_some() =>
            SemanticsRole::Forms {
                label: "",
                button: false,
                tap: tap.is_some(),
                long: long.is_some(),
            },
        Kind::MergeSemantics => SemanticsRole::Merges,
        Kind::Opacity { alpha: 0 }
        | Kind::Offstage { offstage: true }
        | Kind::ExcludeSemantics { excluding: true } => SemanticsRole::Hides,
        Kind::SizedBox { .. }
        | Kind::ConstrainedBox { .. }
        | Kind::Padding { .. }
        | Kind::Align { .. }
        | Kind::ColoredBox { .. }
        | Kind::Row { .. }
        | Kind::Column { .. }
        | Kind::Wrap { .. }
        | Kind::Table { .. }
        | Kind::Stack { .. }
        | Kind::Flexible { .. }
        | Kind::Positioned { .. }
        | Kind::Opacity { .. }
        | Kind::ClipRect
        | Kind::RepaintBoundary
        | Kind::IntrinsicWidth
        | Kind::IntrinsicHeight
        | Kind::Offstage { .. }
        | Kind::IgnorePointer { .. }
        | Kind::AbsorbPointer { .. }
        | Kind::Detector { .. }
        | Kind::ExcludeSemantics { .. }
        | Kind::CustomPaint { .. }
        | Kind::CustomLayout { .. }
        | Kind::Viewport { .. }
        | Kind::SliverToBox
        | Kind::SliverPadding { .. }
        | Kind::SliverFixed { .. }
        | Kind::SliverLazy { .. }
        | Kind::Keep { .. }
        | Kind::Inherit { .. }
        | Kind::Use { .. } => SemanticsRole::Says {
            label: "",
            button: false,
        },
    }
}

// What a node is to the semantics tree.
pub(crate) fn semantics_role(kind: &Kind, frame: Frame) -> SemanticsRole<'_>
    ensures { seen result ≡ semantics_role (look_in kind.now) frame }
{
    if frame.is_unseen() {
        return SemanticsRole::Hides;
    }
    kind_role(kind)
}
