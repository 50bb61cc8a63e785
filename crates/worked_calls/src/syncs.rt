// Render nodes that are brought to the tree of a build.
ghost use Rattle.std.specs.Prelude.{◌≡◌, ℕ, IfOk};
ghost use Rattle.widget_model.specs.Look.{Look};
ghost use Rattle.plain_tree.specs.declared.render.ParentData.{ParentData as ParentDataOf};
ghost use Rattle.plain_tree.specs.Render.{render, renders_of};

use crate::compare::expect;
use crate::elements::shared;
use fx_geom::Scale;
use plain_tree::{ParentData, RenderNode};
use render_sync::sync;
use render_tree::RenderTree;
use std::alloc::{AllocError, Global};
use std::collections::BTreeMap;
use std::process::Abort;
use std::test::Fail;
use widget_model::Kind;

// A clip with a number, and these nodes below it.
fn clip(alloc: Global, number: u64, children: Vec<RenderNode>) -> Result<RenderNode, AllocError>
    ensures { IfOk result (λ r. (look : Look) × (told : ParentDataOf) × (count : ℕ) × (r ≡ render number look told 0 count (renders_of children.items))) }
{
    let widget = shared(alloc, Kind::ClipRect)?;
    let node = RenderNode {
        number,
        widget,
        parent_data: ParentData::default(),
        scroll: 0,
        children,
    };
    Ok(node)
}

// A clip in a clip in a clip: each is made, with all to be done.
fn sync_new(rt: &impl Abort, alloc: Global) -> Result<(), Fail> {
    let third = clip(alloc, 3, Vec::new(alloc))?;
    let second = clip(alloc, 2, vec![in alloc; third]?)?;
    let first = clip(alloc, 1, vec![in alloc; second]?)?;
    let mut tree = RenderTree::new(alloc, Scale::standard());
    let mut numbers = BTreeMap::new(alloc);
    sync(alloc, &mut tree, &mut numbers, &first)?;
    let Some(root) = tree.root() else {
        return Err(Fail::new("no root"));
    };
    expect(rt, tree.number(root), Some(1));
    let Some(child) = numbers.get(&2u64).copied() else {
        return Err(Fail::new("no second node"));
    };
    expect(rt, tree.children(root), [child].as_slice());
    expect(rt, tree.number(child), Some(2));
    expect(rt, tree.needs_layout(child), true);
    expect(rt, numbers.len(), 3);
    Ok(())
}

#[test]
fn a_build_is_brought_into_an_empty_tree(rt: HostRuntime) -> Result<(), Fail> {
    sync_new(&rt, rt.alloc())
}
