// Reading a tree of render nodes.
ghost use Rattle.std.specs.Prelude.{◌≡◌, ◌<◌, map, length, slice_index_or, IfOk};
ghost use Rattle.widget_model.specs.View.{look_in};
ghost use Rattle.plain_tree.specs.Render.{Render};
ghost use Rattle.layout_form.specs.Fits.{data_of};
ghost use Rattle.kind_rules.specs.Cursor.{look_of, count_in, children_of};

use plain_tree::ParentData;
use std::alloc::{AllocError, Global};
use widget_model::Kind;

/// A place in a tree, however the tree is kept: what stands there is a render node, of which its kind, what it was told and the
/// nodes below it can be read.
pub trait Cursor: Copy {
    /// The render node that stands there.
    ghost stands: { Self → Render };

    /// Its kind.
    fn kind(&self) -> &Kind
        ensures { look_in result.now ≡ look_of (stands self.now) };

    /// How many child widgets it has, where it is a SliverLazy, and else 0.
    fn count(&self) -> u64
        ensures { result ≡ count_in (stands self.now) };

    /// What it was told by the widgets above it.
    fn told(&self) -> ParentData
        ensures { result ≡ data_of (stands self.now) };

    /// How many nodes stand below it.
    fn len(&self) -> usize
        ensures { result ≡ length (children_of (stands self.now)) };

    /// The place of node i below it.
    fn child(&self, i: usize) -> Self
        requires { i < length (children_of (stands self.now)) }
        ensures { stands result ≡ slice_index_or (children_of (stands self.now)) i (stands result) };
}

// What the nodes below a place were told.
pub(crate) fn told_to<C: Cursor>(alloc: Global, cursor: C) -> Result<Vec<ParentData>, AllocError>
    ensures { IfOk result (λ v. v.items ≡ map data_of (children_of (C.stands cursor))) }
{
    let count = cursor.len();
    let mut told = Vec::with_capacity(alloc, count)?;
    for i in 0..count {
        let child = cursor.child(i);
        told.push(child.told())?;
    }
    Ok(told)
}
