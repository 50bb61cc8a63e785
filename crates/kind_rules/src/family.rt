// The children of a node, as a rule reads them.
ghost use Rattle.std.specs.Prelude.{◌≡◌, ◌<◌, List, Option, None, length, option_map, slice_index_or, IfOk};
ghost use Rattle.plain_tree.specs.Shown.{box_size};
ghost use Rattle.plain_tree.specs.declared.laid.Frame.{Frame};
ghost use Rattle.plain_tree.specs.declared.render.ParentData.{ParentData};
ghost use Rattle.kind_rules.specs.Few.{items_of};

use crate::few::Few;
use fx_geom::Size;
use plain_tree::{Frame, ParentData};
use std::alloc::{AllocError, Global};

/// The children of a node, however they are kept: what they were told, and the frames of those that have answered.
pub trait Family: Copy {
    /// What they were told, in order.
    ghost told: { Self → List ParentData };

    /// Their frames, in order.
    ghost frames: { Self → List (Option Frame) };

    /// How many were told.
    fn len(&self) -> usize
        ensures { result ≡ length (told self.now) };

    /// How many there are frames of.
    fn answers(&self) -> usize
        ensures { result ≡ length (frames self.now) };

    /// What child i was told.
    fn told_at(&self, i: usize) -> &ParentData
        requires { i < length (told self.now) }
        ensures { result.now ≡ slice_index_or (told self.now) i result.now };

    /// The frame of child i, where it has answered.
    fn frame_at(&self, i: usize) -> Option<Frame>
        requires { i < length (frames self.now) }
        ensures { result ≡ slice_index_or (frames self.now) i None };

    /// The size of child i, where it has answered.
    fn size_at(&self, i: usize) -> Option<Size>
        requires { i < length (frames self.now) }
        ensures { result ≡ option_map box_size (slice_index_or (frames self.now) i None) };
}

// A family in two lists.
#[derive(Clone, Copy)]
pub(crate) struct Lists<'a> {
    pub told: &'a [ParentData],
    pub frames: &'a [Option<Frame>],
}

impl<'a> Family for Lists<'a> {
    ghost told = { λ l. l.told.now };

    ghost frames = { λ l. l.frames.now };

    fn len(&self) -> usize {
        let told = self.told;
        told.len()
    }

    fn answers(&self) -> usize {
        let frames = self.frames;
        frames.len()
    }

    fn told_at(&self, i: usize) -> &ParentData {
        let told = self.told;
        &told[i]
    }

    fn frame_at(&self, i: usize) -> Option<Frame> {
        let frames = self.frames;
        frames[i]
    }

    fn size_at(&self, i: usize) -> Option<Size> {
        let frames = self.frames;
        match &frames[i] {
            None => None,
            Some(frame) => Some(frame.box_size()),
        }
    }
}

// What the children of a family were told, as a list.
pub(crate) fn told_in<F: Family>(alloc: Global, family: F) -> Result<Few<ParentData>, AllocError>
    ensures { IfOk result (λ v. items_of v ≡ F.told family) }
{
    let count = family.len();
    if count == 0 {
        return Ok(Few::Empty);
    }
    if count == 1 {
        return Ok(Few::Alone(*family.told_at(0)));
    }
    let mut told = Vec::with_capacity(alloc, count)?;
    for i in 0..count {
        told.push_reserved(*family.told_at(i));
    }
    Ok(Few::Each(told))
}

// The frames of a family, as a list.
pub(crate) fn frames_in<F: Family>(
    alloc: Global,
    family: F,
) -> Result<Few<Option<Frame>>, AllocError>
    ensures { IfOk result (λ v. items_of v ≡ F.frames family) }
{
    let count = family.answers();
    if count == 0 {
        return Ok(Few::Empty);
    }
    if count == 1 {
        return Ok(Few::Alone(family.frame_at(0)));
    }
    let mut frames = Vec::with_capacity(alloc, count)?;
    for i in 0..count {
        frames.push_reserved(family.frame_at(i));
    }
    Ok(Few::Each(frames))
}
