// The kind of the widget that a template makes, with its members.
ghost use Rattle.std.specs.Prelude.{◌≡◌, [], IfOk};
ghost use Rattle.widget_model.specs.View.{look_in, slots_in};
ghost use Rattle.template_build.specs.declared.roles.TemplateRole.TheVariants as gives;
ghost use Rattle.template_build.specs.Looks.{look_by};
ghost use Rattle.template_build.specs.MembersView.{members_at, scene_at, IsBuilt};
ghost use Rattle.template_build.specs.TemplateRole.{template_role_of};

use crate::members::Members;
use program_form::KindName;
use std::alloc::{AllocError, Global};
use widget_model::Kind;

impl<'a> Members<'a> {
    // The kind, of a widget that isn't a use of a component, with or without widgets below it.
    pub(crate) fn kind(&self, alloc: Global, below: bool) -> Result<Kind, AllocError>
        requires built { IsBuilt self.now }
        requires role { template_role_of self.now.body.now.w ≡ gives.Widget }
        ensures look { IfOk result (λ k. look_in k ≡ look_by self.now.body.now.w (members_at self.now) (scene_at self.now) below) }
        ensures no_slots { IfOk result (λ k. slots_in k ≡ []) }
    {
        match self.body.w {
            KindName::SizedBox => self.sized_box(alloc),
            KindName::ConstrainedBox => self.constrained_box(alloc),
            KindName::Padding => self.padding(alloc),
            KindName::Align => self.align(alloc),
            KindName::ColoredBox => self.colored_box(alloc),
            KindName::Text => self.text(alloc),
            KindName::Row => self.row(alloc),
            KindName::Column => self.column(alloc),
            KindName::Stack => self.stack(alloc),
            KindName::Flexible => self.flexible(alloc),
            KindName::Positioned => self.positioned(alloc),
            KindName::Opacity => self.opacity(alloc),
            KindName::ClipRect => Ok(Kind::ClipRect),
            KindName::RepaintBoundary => Ok(Kind::RepaintBoundary),
            KindName::MergeSemantics => Ok(Kind::MergeSemantics),
            KindName::IntrinsicWidth => Ok(Kind::IntrinsicWidth),
            KindName::IntrinsicHeight => Ok(Kind::IntrinsicHeight),
            KindName::Offstage => self.offstage(alloc),
            KindName::IgnorePointer => self.ignore_pointer(alloc),
            KindName::AbsorbPointer => self.absorb_pointer(alloc),
            KindName::Detector => self.detector(alloc, below),
            KindName::Semantics => self.semantics(alloc),
            KindName::ExcludeSemantics => self.exclude_semantics(alloc),
            KindName::CustomPaint => self.custom_paint(alloc),
            KindName::CustomLayout => self.custom_layout(alloc),
            KindName::Viewport => self.viewport(alloc),
            KindName::SliverToBox => Ok(Kind::SliverToBox),
            KindName::SliverPadding => self.sliver_padding(alloc),
            KindName::SliverFixed => self.sliver_fixed(alloc),
            KindName::SliverLazy => self.sliver_lazy(alloc),
            KindName::Keep => self.keep(alloc),
            KindName::Wrap => self.wrap(alloc),
            KindName::Table => self.table(alloc),
            KindName::Inherit => self.inherit(alloc),
            KindName::Use | KindName::Slot | KindName::If | KindName::Each => unreachable!(),
        }
    }
}
