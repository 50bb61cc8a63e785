// Boxes that size, place or pad their child.
ghost use Rattle.std.specs.Prelude.{◌≡◌, [], false, IfOk};
ghost use Rattle.program_form.specs.declared.kinds.KindName.TheVariants as kind;
ghost use Rattle.widget_model.specs.View.{look_in, slots_in};
ghost use Rattle.template_build.specs.Looks.{look_by};
ghost use Rattle.template_build.specs.MembersView.{members_at, scene_at, IsBuilt};

use crate::members::Members;
use std::alloc::{AllocError, Global};
use widget_model::Kind;

#[tactic(auto, unfolding(program_form::specs::Kinds::members_of))]
impl<'a> Members<'a> {
    // A box of a width and a height.
    pub(crate) fn sized_box(&self, alloc: Global) -> Result<Kind, AllocError>
        requires built { IsBuilt self.now }
        requires kind { self.now.body.now.w ≡ kind.SizedBox }
        ensures look { IfOk result (λ k. look_in k ≡ look_by kind.SizedBox (members_at self.now) (scene_at self.now) false) }
        ensures no_slots { IfOk result (λ k. slots_in k ≡ []) }
    {
        let width = self.length(alloc, 0)?;
        let height = self.length(alloc, 1)?;
        Ok(Kind::SizedBox { width, height })
    }

    // Bounds on the child's size.
    pub(crate) fn constrained_box(&self, alloc: Global) -> Result<Kind, AllocError>
        requires built { IsBuilt self.now }
        requires kind { self.now.body.now.w ≡ kind.ConstrainedBox }
        ensures look { IfOk result (λ k. look_in k ≡ look_by kind.ConstrainedBox (members_at self.now) (scene_at self.now) false) }
        ensures no_slots { IfOk result (λ k. slots_in k ≡ []) }
    {
        let min_width = self.length_or_zero(alloc, 0)?;
        let max_width = self.length(alloc, 1)?;
        let min_height = self.length_or_zero(alloc, 2)?;
        let max_height = self.length(alloc, 3)?;
        Ok(Kind::ConstrainedBox {
            min_width,
            max_width,
            min_height,
            max_height,
        })
    }

    // Room round the child.
    pub(crate) fn padding(&self, alloc: Global) -> Result<Kind, AllocError>
        requires built { IsBuilt self.now }
        requires kind { self.now.body.now.w ≡ kind.Padding }
        ensures look { IfOk result (λ k. look_in k ≡ look_by kind.Padding (members_at self.now) (scene_at self.now) false) }
        ensures no_slots { IfOk result (λ k. slots_in k ≡ []) }
    {
        let left = self.length_or_zero(alloc, 0)?;
        let top = self.length_or_zero(alloc, 1)?;
        let right = self.length_or_zero(alloc, 2)?;
        let bottom = self.length_or_zero(alloc, 3)?;
        Ok(Kind::Padding {
            left,
            top,
            right,
            bottom,
        })
    }

    // The child's place in the room.
    pub(crate) fn align(&self, alloc: Global) -> Result<Kind, AllocError>
        requires built { IsBuilt self.now }
        requires kind { self.now.body.now.w ≡ kind.Align }
        ensures look { IfOk result (λ k. look_in k ≡ look_by kind.Align (members_at self.now) (scene_at self.now) false) }
        ensures no_slots { IfOk result (λ k. slots_in k ≡ []) }
    {
        let ax = self.alignment_or(alloc, 0, 0)?;
        let ay = self.alignment_or(alloc, 0, 1)?;
        Ok(Kind::Align { ax, ay })
    }

    // A child that isn't shown.
    pub(crate) fn offstage(&self, alloc: Global) -> Result<Kind, AllocError>
        requires built { IsBuilt self.now }
        requires kind { self.now.body.now.w ≡ kind.Offstage }
        ensures look { IfOk result (λ k. look_in k ≡ look_by kind.Offstage (members_at self.now) (scene_at self.now) false) }
        ensures no_slots { IfOk result (λ k. slots_in k ≡ []) }
    {
        let offstage = self.flag_or(alloc, true, 0)?;
        Ok(Kind::Offstage { offstage })
    }
}
