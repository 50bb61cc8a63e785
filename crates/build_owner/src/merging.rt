// Plans of items are merged into the plan of a tree, list by list.
ghost use Rattle.std.specs.Prelude.{◌≡◌, Bool, map, IfOk};
ghost use Rattle.build_walk.specs.Merging.{merge, first_serving, later_servings};
ghost use Rattle.build_owner.specs.MergingView.{serving_of};

use build_form::build_role_of;
use element_tree::Renewal;
use fx_handles::Handle;
use node_tree::PlanEntry;
use render_tree::Redraw;
use std::alloc::{AllocError, Global};
use std::collections::VecDeque;
use std::rc::Rc;

/// What a plan changes of a node, as far as it tells lazy lists from other nodes.
pub(crate) trait Listing: Sized {
    /// Whether the node is a lazy list.
    ghost lists: { Self → Bool };

    /// Whether the node is a lazy list.
    fn lists(&self) -> bool
        ensures { result ≡ lists self.now };

    /// The same once more.
    fn again(&self) -> Result<Self, AllocError>
        ensures { IfOk result (λ u. u ≡ self.now) };
}

impl Listing for Renewal {
    ghost use Rattle.build_walk.specs.Merging.{lists_renewal};

    ghost lists = { lists_renewal };

    fn lists(&self) -> bool {
        build_role_of(&self.widget.kind).is_lazy()
    }

    fn again(&self) -> Result<Renewal, AllocError> {
        let output = match &self.output {
            Some(widget) => Some(Rc::clone(widget)?),
            None => None,
        };
        Ok(Renewal {
            widget: Rc::clone(&self.widget)?,
            index: self.index,
            output,
            render: self.render,
        })
    }
}

impl Listing for Redraw {
    ghost use Rattle.build_walk.specs.Merging.{lists_redraw};

    ghost lists = { lists_redraw };

    fn lists(&self) -> bool {
        build_role_of(&self.widget.kind).is_lazy()
    }

    fn again(&self) -> Result<Redraw, AllocError> {
        Ok(Redraw {
            widget: Rc::clone(&self.widget)?,
            parent_data: self.parent_data,
        })
    }
}

/// What was planned for the items of one list: their handles, and their entries.
#[derive(Drop)]
pub(crate) struct PlannedItems<U> {
    pub(crate) children: Vec<Handle>,
    pub(crate) entries: Vec<PlanEntry<U>>,
}

// What was planned for the next list's items.
fn next_items<U: Drop>(alloc: Global, served: &mut VecDeque<PlannedItems<U>>) -> PlannedItems<U>
    ensures first { serving_of result ≡ first_serving (map serving_of served.old.items) }
    ensures later { map serving_of served.new.items ≡ later_servings (map serving_of served.old.items) }
{
    match served.pop_front() {
        Some(items) => items,
        None => PlannedItems {
            children: Vec::new(alloc),
            entries: Vec::new(alloc),
        },
    }
}

/// The plan into which the plans of lists' items are merged: before the entry of each list come those of its items, and it gets their
/// handles.
pub(crate) fn merge<U: Listing + Drop>(
    alloc: Global,
    mut plan: Vec<PlanEntry<U>>,
    mut served: VecDeque<PlannedItems<U>>,
) -> Result<Vec<PlanEntry<U>>, AllocError>
    ensures { IfOk result (λ es. es.items ≡ (merge U.lists plan.items (map serving_of served.items)).plan) }
{
    let mut merged = Vec::with_capacity(alloc, plan.len())?;
    plan.reverse();
    while let Some(entry) = plan.pop() {
        if !entry.update().lists() {
            merged.push(entry)?;
            continue;
        }
        let mut items = next_items(alloc, &mut served);
        merged.append(&mut items.entries)?;
        let update = entry.update().again()?;
        merged.push(PlanEntry::new(entry.at(), entry.parent(), items.children, update))?;
    }
    Ok(merged)
}
