// What pointers do on a child, what is said of it, and the values that it gives to what is below.
ghost use Rattle.std.specs.Prelude.{◌≡◌, [], false, IfOk};
ghost use Rattle.program_form.specs.declared.kinds.KindName.TheVariants as kind;
ghost use Rattle.widget_model.specs.View.{look_in, slots_in};
ghost use Rattle.template_build.specs.Members.{word_at, behavior_without_word, behavior_or};
ghost use Rattle.template_build.specs.Looks.{look_by};
ghost use Rattle.template_build.specs.MembersView.{members_at, scene_at, IsBuilt};

use crate::members::Members;
use program_form::Word;
use std::alloc::{AllocError, Global};
use widget_model::{Behavior, Kind};

// The behavior of a detector that gives none: it defers to its child, or lets what is behind it be hit too.
fn default_behavior(below: bool) -> Behavior
    ensures { result ≡ behavior_without_word below }
{
    if below {
        Behavior::Defer
    } else {
        Behavior::Translucent
    }
}

#[tactic(auto, unfolding(program_form::specs::Kinds::members_of))]
impl<'a> Members<'a> {
    // A child that no pointer hits.
    pub(crate) fn ignore_pointer(&self, alloc: Global) -> Result<Kind, AllocError>
        requires built { IsBuilt self.now }
        requires kind { self.now.body.now.w ≡ kind.IgnorePointer }
        ensures look { IfOk result (λ k. look_in k ≡ look_by kind.IgnorePointer (members_at self.now) (scene_at self.now) false) }
        ensures no_slots { IfOk result (λ k. slots_in k ≡ []) }
    {
        let ignoring = self.flag_or(alloc, true, 0)?;
        Ok(Kind::IgnorePointer { ignoring })
    }

    // A box that keeps pointers from its child.
    pub(crate) fn absorb_pointer(&self, alloc: Global) -> Result<Kind, AllocError>
        requires built { IsBuilt self.now }
        requires kind { self.now.body.now.w ≡ kind.AbsorbPointer }
        ensures look { IfOk result (λ k. look_in k ≡ look_by kind.AbsorbPointer (members_at self.now) (scene_at self.now) false) }
        ensures no_slots { IfOk result (λ k. slots_in k ≡ []) }
    {
        let absorbing = self.flag_or(alloc, true, 0)?;
        Ok(Kind::AbsorbPointer { absorbing })
    }

    // A Detector's behavior; the default depends on whether there is a child.
    fn behavior(&self, below: bool) -> Behavior
        ensures { result ≡ behavior_or (behavior_without_word below) (word_at (members_at self.now) 0) }
    {
        match self.word(0) {
            Some(Word::Behavior(behavior)) => behavior,
            _ => default_behavior(below),
        }
    }

    // What is set at gestures.
    pub(crate) fn detector(&self, alloc: Global, below: bool) -> Result<Kind, AllocError>
        requires built { IsBuilt self.now }
        requires kind { self.now.body.now.w ≡ kind.Detector }
        ensures look { IfOk result (λ k. look_in k ≡ look_by kind.Detector (members_at self.now) (scene_at self.now) below) }
        ensures no_slots { IfOk result (λ k. slots_in k ≡ []) }
    {
        let behavior = self.behavior(below);
        let tap = self.handler(alloc, 1)?;
        let long = self.handler(alloc, 2)?;
        let vertical = self.handler(alloc, 3)?;
        let horizontal = self.handler(alloc, 4)?;
        let pan = self.handler(alloc, 5)?;
        Ok(Kind::Detector {
            behavior,
            tap,
            long,
            vertical,
            horizontal,
            pan,
        })
    }

    // What a semantics node says.
    pub(crate) fn semantics(&self, alloc: Global) -> Result<Kind, AllocError>
        requires built { IsBuilt self.now }
        requires kind { self.now.body.now.w ≡ kind.Semantics }
        ensures look { IfOk result (λ k. look_in k ≡ look_by kind.Semantics (members_at self.now) (scene_at self.now) false) }
        ensures no_slots { IfOk result (λ k. slots_in k ≡ []) }
    {
        let label = self.text_or_empty(alloc, 0)?;
        let button = self.flag_or(alloc, false, 1)?;
        let container = self.flag_or(alloc, false, 2)?;
        Ok(Kind::Semantics {
            label,
            button,
            container,
        })
    }

    // A child without semantics.
    pub(crate) fn exclude_semantics(&self, alloc: Global) -> Result<Kind, AllocError>
        requires built { IsBuilt self.now }
        requires kind { self.now.body.now.w ≡ kind.ExcludeSemantics }
        ensures look { IfOk result (λ k. look_in k ≡ look_by kind.ExcludeSemantics (members_at self.now) (scene_at self.now) false) }
        ensures no_slots { IfOk result (λ k. slots_in k ≡ []) }
    {
        let excluding = self.flag_or(alloc, true, 0)?;
        Ok(Kind::ExcludeSemantics { excluding })
    }

    // A value for all below.
    pub(crate) fn inherit(&self, alloc: Global) -> Result<Kind, AllocError>
        requires built { IsBuilt self.now }
        requires kind { self.now.body.now.w ≡ kind.Inherit }
        ensures look { IfOk result (λ k. look_in k ≡ look_by kind.Inherit (members_at self.now) (scene_at self.now) false) }
        ensures no_slots { IfOk result (λ k. slots_in k ≡ []) }
    {
        let name = self.name(0);
        let value = self.value_or_zero(alloc, 1)?;
        Ok(Kind::Inherit { name, value })
    }
}
