// What a template gives, by its kind.
ghost use Rattle.std.specs.Prelude.{◌≡◌};
ghost use Rattle.template_build.specs.TemplateRole.{template_role_of};

use program_form::KindName;

// What a template gives.
#[derive(Clone, Copy)]
pub(crate) enum TemplateRole {
    // One widget, with the templates in it as its children.
    Widget,
    // One use of a component, with the templates in it in its slots.
    Component,
    // The content given for a slot.
    Content,
    // What one of two templates gives.
    Choice,
    // What a template gives at each item of a list.
    Loop,
}

// What a template of the kind gives.
pub(crate) fn template_role_of(kind: KindName) -> TemplateRole
    ensures { result ≡ template_role_of kind }
{
    match kind {
        KindName::SizedBox
        | KindName::ConstrainedBox
        | KindName::Padding
        | KindName::Align
        | KindName::ColoredBox
        | KindName::Text
        | KindName::Row
        | KindName::Column
        | KindName::Stack
        | KindName::Flexible
        | KindName::Positioned
        | KindName::Opacity
        | KindName::ClipRect
        | KindName::RepaintBoundary
        | KindName::MergeSemantics
        | KindName::IntrinsicWidth
        | KindName::IntrinsicHeight
        | KindName::Offstage
        | KindName::IgnorePointer
        | KindName::AbsorbPointer
        | KindName::Detector
        | KindName::Semantics
        | KindName::ExcludeSemantics
        | KindName::CustomPaint
        | KindName::CustomLayout
        | KindName::Viewport
        | KindName::SliverToBox
        | KindName::SliverPadding
        | KindName::SliverFixed
        | KindName::SliverLazy
        | KindName::Keep
        | KindName::Wrap
        | KindName::Table
        | KindName::Inherit => TemplateRole::Widget,
        KindName::Use => TemplateRole::Component,
        KindName::Slot => TemplateRole::Content,
        KindName::If => TemplateRole::Choice,
        KindName::Each => TemplateRole::Loop,
    }
}
