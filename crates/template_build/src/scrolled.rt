// Slivers, and what holds them.
ghost use Rattle.std.specs.Prelude.{◌≡◌, [], false, IfOk};
ghost use Rattle.program_form.specs.declared.kinds.KindName.TheVariants as kind;
ghost use Rattle.widget_model.specs.View.{look_in, slots_in};
ghost use Rattle.template_build.specs.Members.{word_at, axis_or_vertical};
ghost use Rattle.template_build.specs.Looks.{look_by};
ghost use Rattle.template_build.specs.MembersView.{members_at, scene_at, IsBuilt};

use crate::members::Members;
use fx_geom::Axis;
use program_form::Word;
use std::alloc::{AllocError, Global};
use widget_model::Kind;

#[tactic(auto, unfolding(program_form::specs::Kinds::members_of))]
impl<'a> Members<'a> {
    // A Viewport's axis.
    fn axis(&self) -> Axis
        ensures { result ≡ axis_or_vertical (word_at (members_at self.now) 0) }
    {
        match self.word(0) {
            Some(Word::Axis(axis)) => axis,
            _ => Axis::Vertical,
        }
    }

    // Slivers that scroll.
    pub(crate) fn viewport(&self, alloc: Global) -> Result<Kind, AllocError>
        requires built { IsBuilt self.now }
        requires kind { self.now.body.now.w ≡ kind.Viewport }
        ensures look { IfOk result (λ k. look_in k ≡ look_by kind.Viewport (members_at self.now) (scene_at self.now) false) }
        ensures no_slots { IfOk result (λ k. slots_in k ≡ []) }
    {
        let axis = self.axis();
        Ok(Kind::Viewport { axis })
    }

    // Room round a sliver.
    pub(crate) fn sliver_padding(&self, alloc: Global) -> Result<Kind, AllocError>
        requires built { IsBuilt self.now }
        requires kind { self.now.body.now.w ≡ kind.SliverPadding }
        ensures look { IfOk result (λ k. look_in k ≡ look_by kind.SliverPadding (members_at self.now) (scene_at self.now) false) }
        ensures no_slots { IfOk result (λ k. slots_in k ≡ []) }
    {
        let left = self.length_or_zero(alloc, 0)?;
        let top = self.length_or_zero(alloc, 1)?;
        let right = self.length_or_zero(alloc, 2)?;
        let bottom = self.length_or_zero(alloc, 3)?;
        Ok(Kind::SliverPadding {
            left,
            top,
            right,
            bottom,
        })
    }

    // A list of items of one extent.
    pub(crate) fn sliver_fixed(&self, alloc: Global) -> Result<Kind, AllocError>
        requires built { IsBuilt self.now }
        requires kind { self.now.body.now.w ≡ kind.SliverFixed }
        ensures look { IfOk result (λ k. look_in k ≡ look_by kind.SliverFixed (members_at self.now) (scene_at self.now) false) }
        ensures no_slots { IfOk result (λ k. slots_in k ≡ []) }
    {
        let extent = self.extent(alloc, 0)?;
        Ok(Kind::SliverFixed { extent })
    }

    // The same, of which only those near the window are there.
    pub(crate) fn sliver_lazy(&self, alloc: Global) -> Result<Kind, AllocError>
        requires built { IsBuilt self.now }
        requires kind { self.now.body.now.w ≡ kind.SliverLazy }
        ensures look { IfOk result (λ k. look_in k ≡ look_by kind.SliverLazy (members_at self.now) (scene_at self.now) false) }
        ensures no_slots { IfOk result (λ k. slots_in k ≡ []) }
    {
        let extent = self.extent(alloc, 0)?;
        Ok(Kind::SliverLazy { extent })
    }

    // An item that stays while it is out of sight.
    pub(crate) fn keep(&self, alloc: Global) -> Result<Kind, AllocError>
        requires built { IsBuilt self.now }
        requires kind { self.now.body.now.w ≡ kind.Keep }
        ensures look { IfOk result (λ k. look_in k ≡ look_by kind.Keep (members_at self.now) (scene_at self.now) false) }
        ensures no_slots { IfOk result (λ k. slots_in k ≡ []) }
    {
        let keep = self.flag_or(alloc, true, 0)?;
        Ok(Kind::Keep { keep })
    }
}
