// Boxes that paint, or say how their child is painted.
ghost use Rattle.std.specs.Prelude.{◌≡◌, [], false, IfOk};
ghost use Rattle.program_form.specs.declared.kinds.KindName.TheVariants as kind;
ghost use Rattle.widget_model.specs.View.{look_in, slots_in};
ghost use Rattle.template_build.specs.Looks.{look_by};
ghost use Rattle.template_build.specs.MembersView.{members_at, scene_at, IsBuilt};

use crate::members::Members;
use std::alloc::{AllocError, Global};
use widget_model::Kind;

// Opaque black, the color of a text.
const BLACK: u32 = 0xff00_0000;

#[tactic(auto, unfolding(program_form::specs::Kinds::members_of))]
impl<'a> Members<'a> {
    // A color below the child.
    pub(crate) fn colored_box(&self, alloc: Global) -> Result<Kind, AllocError>
        requires built { IsBuilt self.now }
        requires kind { self.now.body.now.w ≡ kind.ColoredBox }
        ensures look { IfOk result (λ k. look_in k ≡ look_by kind.ColoredBox (members_at self.now) (scene_at self.now) false) }
        ensures no_slots { IfOk result (λ k. slots_in k ≡ []) }
    {
        let color = self.color_or(alloc, 0, 0)?;
        Ok(Kind::ColoredBox { color })
    }

    // A paragraph, black where it gives no color.
    pub(crate) fn text(&self, alloc: Global) -> Result<Kind, AllocError>
        requires built { IsBuilt self.now }
        requires kind { self.now.body.now.w ≡ kind.Text }
        ensures look { IfOk result (λ k. look_in k ≡ look_by kind.Text (members_at self.now) (scene_at self.now) false) }
        ensures no_slots { IfOk result (λ k. slots_in k ≡ []) }
    {
        let text = self.text_or_empty(alloc, 0)?;
        let color = self.color_or(alloc, BLACK, 1)?;
        Ok(Kind::Text { text, color })
    }

    // The child, partly transparent.
    pub(crate) fn opacity(&self, alloc: Global) -> Result<Kind, AllocError>
        requires built { IsBuilt self.now }
        requires kind { self.now.body.now.w ≡ kind.Opacity }
        ensures look { IfOk result (λ k. look_in k ≡ look_by kind.Opacity (members_at self.now) (scene_at self.now) false) }
        ensures no_slots { IfOk result (λ k. slots_in k ≡ []) }
    {
        let alpha = self.up_to_or(alloc, 255, 255, 0)?;
        Ok(Kind::Opacity { alpha: alpha as u8 })
    }

    // A delegate's painting.
    pub(crate) fn custom_paint(&self, alloc: Global) -> Result<Kind, AllocError>
        requires built { IsBuilt self.now }
        requires kind { self.now.body.now.w ≡ kind.CustomPaint }
        ensures look { IfOk result (λ k. look_in k ≡ look_by kind.CustomPaint (members_at self.now) (scene_at self.now) false) }
        ensures no_slots { IfOk result (λ k. slots_in k ≡ []) }
    {
        let delegate = self.text_or_empty(alloc, 0)?;
        Ok(Kind::CustomPaint { delegate })
    }

    // A delegate's layout.
    pub(crate) fn custom_layout(&self, alloc: Global) -> Result<Kind, AllocError>
        requires built { IsBuilt self.now }
        requires kind { self.now.body.now.w ≡ kind.CustomLayout }
        ensures look { IfOk result (λ k. look_in k ≡ look_by kind.CustomLayout (members_at self.now) (scene_at self.now) false) }
        ensures no_slots { IfOk result (λ k. slots_in k ≡ []) }
    {
        let delegate = self.text_or_empty(alloc, 0)?;
        Ok(Kind::CustomLayout { delegate })
    }
}
