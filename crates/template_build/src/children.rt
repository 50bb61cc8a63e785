// Boxes with a list of children, and what places a child among them.
ghost use Rattle.std.specs.Prelude.{◌≡◌, [], false, IfOk};
ghost use Rattle.program_form.specs.declared.kinds.KindName.TheVariants as kind;
ghost use Rattle.widget_model.specs.View.{look_in, slots_in};
ghost use Rattle.template_build.specs.Members.{word_at, main_or_start, cross_or_center, size_or_max, stack_fit_or_loose, flex_fit_or_loose};
ghost use Rattle.template_build.specs.Looks.{look_by};
ghost use Rattle.template_build.specs.MembersView.{members_at, scene_at, IsBuilt};

use crate::members::Members;
use fx_geom::{CrossAlign, MainAlign, StackFit};
use program_form::Word;
use std::alloc::{AllocError, Global};
use widget_model::{FlexFit, Kind, MainSize};

#[tactic(auto, unfolding(program_form::specs::Kinds::members_of))]
impl<'a> Members<'a> {
    // The words of a Row or a Column: where children stand along it and across it, and how long it is.
    fn main(&self) -> MainAlign
        ensures { result ≡ main_or_start (word_at (members_at self.now) 0) }
    {
        match self.word(0) {
            Some(Word::Main(main)) => main,
            _ => MainAlign::Start,
        }
    }

    fn cross(&self) -> CrossAlign
        ensures { result ≡ cross_or_center (word_at (members_at self.now) 1) }
    {
        match self.word(1) {
            Some(Word::Cross(cross)) => cross,
            _ => CrossAlign::Center,
        }
    }

    fn size(&self) -> MainSize
        ensures { result ≡ size_or_max (word_at (members_at self.now) 2) }
    {
        match self.word(2) {
            Some(Word::Size(size)) => size,
            _ => MainSize::Max,
        }
    }

    // How a Stack's children fit it, and how a Flexible's child fills its share.
    fn stack_fit(&self) -> StackFit
        ensures { result ≡ stack_fit_or_loose (word_at (members_at self.now) 2) }
    {
        match self.word(2) {
            Some(Word::StackFit(fit)) => fit,
            _ => StackFit::Loose,
        }
    }

    fn flex_fit(&self) -> FlexFit
        ensures { result ≡ flex_fit_or_loose (word_at (members_at self.now) 1) }
    {
        match self.word(1) {
            Some(Word::FlexFit(fit)) => fit,
            _ => FlexFit::Loose,
        }
    }

    // Children side by side.
    pub(crate) fn row(&self, alloc: Global) -> Result<Kind, AllocError>
        requires built { IsBuilt self.now }
        requires kind { self.now.body.now.w ≡ kind.Row }
        ensures look { IfOk result (λ k. look_in k ≡ look_by kind.Row (members_at self.now) (scene_at self.now) false) }
        ensures no_slots { IfOk result (λ k. slots_in k ≡ []) }
    {
        let main = self.main();
        let cross = self.cross();
        let size = self.size();
        Ok(Kind::Row { main, cross, size })
    }

    // Children one below another.
    pub(crate) fn column(&self, alloc: Global) -> Result<Kind, AllocError>
        requires built { IsBuilt self.now }
        requires kind { self.now.body.now.w ≡ kind.Column }
        ensures look { IfOk result (λ k. look_in k ≡ look_by kind.Column (members_at self.now) (scene_at self.now) false) }
        ensures no_slots { IfOk result (λ k. slots_in k ≡ []) }
    {
        let main = self.main();
        let cross = self.cross();
        let size = self.size();
        Ok(Kind::Column { main, cross, size })
    }

    // Children one over another, at the upper left where it gives no alignment.
    pub(crate) fn stack(&self, alloc: Global) -> Result<Kind, AllocError>
        requires built { IsBuilt self.now }
        requires kind { self.now.body.now.w ≡ kind.Stack }
        ensures look { IfOk result (λ k. look_in k ≡ look_by kind.Stack (members_at self.now) (scene_at self.now) false) }
        ensures no_slots { IfOk result (λ k. slots_in k ≡ []) }
    {
        let ax = self.alignment_or(alloc, -100, 0)?;
        let ay = self.alignment_or(alloc, -100, 1)?;
        let fit = self.stack_fit();
        Ok(Kind::Stack { ax, ay, fit })
    }

    // A share of a Row or a Column.
    pub(crate) fn flexible(&self, alloc: Global) -> Result<Kind, AllocError>
        requires built { IsBuilt self.now }
        requires kind { self.now.body.now.w ≡ kind.Flexible }
        ensures look { IfOk result (λ k. look_in k ≡ look_by kind.Flexible (members_at self.now) (scene_at self.now) false) }
        ensures no_slots { IfOk result (λ k. slots_in k ≡ []) }
    {
        let flex = self.up_to_or(alloc, 1_000_000, 1, 0)?;
        let fit = self.flex_fit();
        Ok(Kind::Flexible { flex, fit })
    }

    // A place in a Stack.
    pub(crate) fn positioned(&self, alloc: Global) -> Result<Kind, AllocError>
        requires built { IsBuilt self.now }
        requires kind { self.now.body.now.w ≡ kind.Positioned }
        ensures look { IfOk result (λ k. look_in k ≡ look_by kind.Positioned (members_at self.now) (scene_at self.now) false) }
        ensures no_slots { IfOk result (λ k. slots_in k ≡ []) }
    {
        let left = self.place(alloc, 0)?;
        let top = self.place(alloc, 1)?;
        let right = self.place(alloc, 2)?;
        let bottom = self.place(alloc, 3)?;
        let width = self.length(alloc, 4)?;
        let height = self.length(alloc, 5)?;
        Ok(Kind::Positioned {
            left,
            top,
            right,
            bottom,
            width,
            height,
        })
    }

    // Children in runs.
    pub(crate) fn wrap(&self, alloc: Global) -> Result<Kind, AllocError>
        requires built { IsBuilt self.now }
        requires kind { self.now.body.now.w ≡ kind.Wrap }
        ensures look { IfOk result (λ k. look_in k ≡ look_by kind.Wrap (members_at self.now) (scene_at self.now) false) }
        ensures no_slots { IfOk result (λ k. slots_in k ≡ []) }
    {
        let spacing = self.length_or_zero(alloc, 0)?;
        let run_spacing = self.length_or_zero(alloc, 1)?;
        Ok(Kind::Wrap {
            spacing,
            run_spacing,
        })
    }

    // Children in rows.
    pub(crate) fn table(&self, alloc: Global) -> Result<Kind, AllocError>
        requires built { IsBuilt self.now }
        requires kind { self.now.body.now.w ≡ kind.Table }
        ensures look { IfOk result (λ k. look_in k ≡ look_by kind.Table (members_at self.now) (scene_at self.now) false) }
        ensures no_slots { IfOk result (λ k. slots_in k ≡ []) }
    {
        let widths = self.ints_or_none(alloc, 0)?;
        Ok(Kind::Table { widths })
    }
}
