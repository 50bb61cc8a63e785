// The plan for the render nodes of a build.
ghost use Rattle.std.specs.Prelude.{[], ◌∷◌, IsSome, IfOk};
ghost use Rattle.std.specs.BTreeMap.{get};
ghost use Rattle.std.specs.Ordering.{nat_cmp};
ghost use Rattle.plain_tree.specs.Render.{renders_of};
ghost use Rattle.render_sync.specs.Renders.{EachNumber, AllNumbers};
ghost use Rattle.render_sync.specs.Synced.{Plans};

use crate::numbering::find;
use fx_handles::Handle;
use node_tree::PlanEntry;
use plain_tree::RenderNode;
use render_tree::Redraw;
use std::alloc::{AllocError, Global};
use std::collections::BTreeMap;
use std::rc::Rc;

// Plans a render node with those below it, and gives its handle.
#[cycle(planning)]
pub(crate) fn plan_node(
    alloc: Global,
    numbers: &BTreeMap<u64, Handle>,
    parent: Option<Handle>,
    node: &RenderNode,
    plan: &mut Vec<PlanEntry<Redraw>>,
) -> Result<Handle, AllocError>
    requires { EachNumber (λ n. IsSome (get nat_cmp numbers.now n)) node.now }
    ensures { IfOk result (λ h. Plans (get nat_cmp numbers.now) parent (node.now ∷ []) plan.old.items plan.new.items [] (h ∷ [])) }
{
    let Some(h) = find(numbers, node.number) else {
        unreachable!()
    };
    let below = plan_nodes(alloc, numbers, Some(h), node.children.as_slice(), plan)?;
    let update = Redraw {
        widget: Rc::clone(&node.widget)?,
        parent_data: node.parent_data,
    };
    plan.push(PlanEntry::new(h, parent, below, update))?;
    Ok(h)
}

// Plans the render nodes of a list, and gives their handles.
#[cycle(planning)]
fn plan_nodes(
    alloc: Global,
    numbers: &BTreeMap<u64, Handle>,
    parent: Option<Handle>,
    nodes: &[RenderNode],
    plan: &mut Vec<PlanEntry<Redraw>>,
) -> Result<Vec<Handle>, AllocError>
    requires { AllNumbers (λ n. IsSome (get nat_cmp numbers.now n)) (renders_of nodes.now) }
    ensures { IfOk result (λ tops. Plans (get nat_cmp numbers.now) parent nodes.now plan.old.items plan.new.items [] tops.items) }
{
    let mut tops = Vec::new(alloc);
    for node in nodes {
        let h = plan_node(alloc, numbers, parent, node, plan)?;
        tops.push(h)?;
    }
    Ok(tops)
}
