// The second phase of a build: lazy lists get their items (`SliverMultiBoxAdaptorElement`).
ghost use Rattle.std.specs.Prelude.{◌≡◌, ◌+◌, ◌≤◌, [], true, false, Ok, map, IfOk, OnOk, IfErr, OnErr, IfSome};
ghost use Rattle.fx_handles.specs.Arena.{inserted_count};
ghost use Rattle.program_check.specs.CheckedView.{plain_checked};
ghost use Rattle.build_form.specs.FaultView.{fault_of};
ghost use Rattle.build_form.specs.FullBuild.{failed, full_build};
ghost use Rattle.build_form.specs.Program.{blueprint_of};
ghost use Rattle.element_tree.specs.Element.{made_count};
ghost use Rattle.build_walk.specs.Standing.{first_builds, all_builds};
ghost use Rattle.build_owner.specs.MergingView.{serving_of};
ghost use Rattle.build_owner.specs.Phases.{IsLaidOut, IsWholeBuild};
ghost use Rattle.build_owner.specs.Served.{elements_served, renders_served};
ghost use Rattle.build_owner.specs.Standing.{next_at};

use crate::committing::commit_whole;
use crate::lazy::LazyList;
use crate::merging::{PlannedItems, merge};
use crate::ranging::{lists_drawn, ranges_of};
use crate::serving::{ServedList, serve_all};
use crate::source::WalkSource;
use crate::walk::BuildWalk;
use build_form::{FrameFault, builds_are_well_built, numbers_differ};
use build_walk::{
    builds_leave_standing_trees, built_trees_have_one_top, forests_are_walked_in_turn,
    grown_forests_go_on, items_complete_the_build, plans_of_items_are_merged,
};
use element_tree::{Element, ElementTree, Renewal};
use fx_outside::Steps;
use global_keys::Registry;
use node_tree::Tree;
use program_check::Checked;
use render_tree::{Redraw, RenderTree};
use std::alloc::{AllocError, Global};
use std::collections::VecDeque;
use std::sync::ledger::Ledger;

// What was planned for the items of all lists, for the elements and for the render nodes.
#[derive(Drop)]
struct AllItems {
    elements: VecDeque<PlannedItems<Renewal>>,
    renders: VecDeque<PlannedItems<Redraw>>,
}

// Takes apart what was planned for elements and for render nodes.
fn apart(alloc: Global, mut served: Vec<ServedList>) -> Result<AllItems, AllocError>
    ensures elements { IfOk result (λ i. map serving_of i.elements.items ≡ map elements_served served.items) }
    ensures renders { IfOk result (λ i. map serving_of i.renders.items ≡ map renders_served served.items) }
{
    let mut elements = VecDeque::new(alloc);
    let mut renders = VecDeque::new(alloc);
    served.reverse();
    while let Some(list) = served.pop() {
        elements.push_back(PlannedItems {
            children: list.children,
            entries: list.elements,
        })?;
        renders.push_back(PlannedItems {
            children: list.tops,
            entries: list.renders,
        })?;
    }
    Ok(AllItems { elements, renders })
}

// Whether no lazy list waits.
fn is_settled(walk: &BuildWalk) -> bool
    ensures none { result ≡ true → walk.now.spots.items ≡ [] }
    ensures some { result ≡ false → walk.now.spots.items ≡ [] → ⊥ }
{
    walk.spots.len() == 0
}

// The second phase; after want of memory and after faults the trees are as it left them.
fn complete<L: Ledger>(
    alloc: Global,
    checked: &Checked,
    lazy: LazyList,
    t: &mut ElementTree,
    r: &mut RenderTree,
    g: &mut Registry,
    builds: &mut Steps<L>,
) -> Result<(), FrameFault>
    requires phase { (lazy.lists ≡ [] → ⊥) → IsLaidOut (plain_checked checked.now) t.old.tree r.old.tree g.old lazy }
    ensures nothing { lazy.lists ≡ [] → (result ≡ Ok tt) × (t.new ≡ t.old) × (r.new ≡ r.old) × (g.new ≡ g.old) × (builds.new ≡ builds.old) }
    ensures whole { OnOk result ((lazy.lists ≡ [] → ⊥) → (p : IsLaidOut (plain_checked checked.now) t.old.tree r.old.tree g.old lazy)
        → IsWholeBuild (plain_checked checked.now) p.elements p.renders p.registry p.begun p.screen p.root r.old.tree t.new.tree r.new.tree g.new) }
    ensures few { OnOk result (inserted_count r.new.tree.nodes + made_count t.old.tree ≤ inserted_count r.old.tree.nodes + made_count t.new.tree) }
    ensures fault { IfErr result (λ e. IfSome (fault_of e) (λ x. (p : IsLaidOut (plain_checked checked.now) t.old.tree r.old.tree g.old lazy)
        → full_build (blueprint_of (plain_checked checked.now)) p.screen p.begun.old (next_at p.elements) p.root ≡ failed x)) }
    ensures builds { OnOk result ((lazy.lists ≡ [] → ⊥) → (p : IsLaidOut (plain_checked checked.now) t.old.tree r.old.tree g.old lazy)
        → builds.new + first_builds (blueprint_of (plain_checked checked.now)) p.begun.old p.begun.marks (next_at p.elements) p.root
        ≡ builds.old + all_builds (blueprint_of (plain_checked checked.now)) p.screen p.begun.old p.begun.marks (next_at p.elements) p.root) }
    ensures builds_at_fault { IfErr result (λ e. IfSome (fault_of e) (λ x. (p : IsLaidOut (plain_checked checked.now) t.old.tree r.old.tree g.old lazy)
        → builds.new + first_builds (blueprint_of (plain_checked checked.now)) p.begun.old p.begun.marks (next_at p.elements) p.root
        ≡ builds.old + all_builds (blueprint_of (plain_checked checked.now)) p.screen p.begun.old p.begun.marks (next_at p.elements) p.root)) }
    ensures scale { r.new.scale ≡ r.old.scale }
{
    items_complete_the_build();
    grown_forests_go_on();
    plans_of_items_are_merged();
    forests_are_walked_in_turn();
    built_trees_have_one_top();
    builds_leave_standing_trees();
    numbers_differ();
    builds_are_well_built();
    Tree::<Element>::walk_laws();
    let LazyList { root, walk } = lazy;
    if is_settled(&walk) {
        return Ok(());
    }
    let BuildWalk {
        entered,
        elements,
        renders,
        tops,
        spots,
    } = walk;
    let drawn = lists_drawn(alloc, renders.as_slice())?;
    let ranges = ranges_of(alloc, r, drawn.as_slice())?;
    let from = WalkSource { alloc, checked };
    let mut walk = BuildWalk {
        entered,
        elements: Vec::new(alloc),
        renders: Vec::new(alloc),
        tops: Vec::new(alloc),
        spots,
    };
    let served = serve_all(
        &from,
        drawn.as_slice(),
        ranges.as_slice(),
        t,
        r,
        g,
        &mut walk,
        builds,
    )?;
    let items = apart(alloc, served)?;
    walk.elements = merge(alloc, elements, items.elements)?;
    walk.renders = merge(alloc, renders, items.renders)?;
    walk.tops = tops;
    commit_whole(t, r, g, root, &mut walk)?;
    Ok(())
}

/// The second phase of a build, once the first one's render nodes were laid out: each lazy list gets the items that are in its live
/// range, and those that stay. Then both trees and the registry stand for the tree of the whole build. Where no list waits it was
/// built already, and nothing happens.
///
/// The first fault of the build is answered, and want of memory. After either all three are spent.
pub fn flush_items<L: Ledger>(
    alloc: Global,
    checked: &Checked,
    lazy: LazyList,
    t: &mut ElementTree,
    r: &mut RenderTree,
    g: &mut Registry,
    builds: &mut Steps<L>,
) -> Result<(), FrameFault>
    requires phase { (lazy.lists ≡ [] → ⊥) → IsLaidOut (plain_checked checked.now) t.old.tree r.old.tree g.old lazy }
    ensures nothing { lazy.lists ≡ [] → (result ≡ Ok tt) × (t.new ≡ t.old) × (r.new ≡ r.old) × (g.new ≡ g.old) × (builds.new ≡ builds.old) }
    ensures whole { OnOk result ((lazy.lists ≡ [] → ⊥) → (p : IsLaidOut (plain_checked checked.now) t.old.tree r.old.tree g.old lazy)
        → IsWholeBuild (plain_checked checked.now) p.elements p.renders p.registry p.begun p.screen p.root r.old.tree t.new.tree r.new.tree g.new) }
    ensures few { OnOk result (inserted_count r.new.tree.nodes + made_count t.old.tree ≤ inserted_count r.old.tree.nodes + made_count t.new.tree) }
    ensures fault { IfErr result (λ e. IfSome (fault_of e) (λ x. (p : IsLaidOut (plain_checked checked.now) t.old.tree r.old.tree g.old lazy)
        → full_build (blueprint_of (plain_checked checked.now)) p.screen p.begun.old (next_at p.elements) p.root ≡ failed x)) }
    // With those of the first phase exactly the components are built that are new, marked, have another widget, or read another value.
    ensures builds { OnOk result ((lazy.lists ≡ [] → ⊥) → (p : IsLaidOut (plain_checked checked.now) t.old.tree r.old.tree g.old lazy)
        → builds.new + first_builds (blueprint_of (plain_checked checked.now)) p.begun.old p.begun.marks (next_at p.elements) p.root
        ≡ builds.old + all_builds (blueprint_of (plain_checked checked.now)) p.screen p.begun.old p.begun.marks (next_at p.elements) p.root) }
    ensures builds_at_fault { IfErr result (λ e. IfSome (fault_of e) (λ x. (p : IsLaidOut (plain_checked checked.now) t.old.tree r.old.tree g.old lazy)
        → builds.new + first_builds (blueprint_of (plain_checked checked.now)) p.begun.old p.begun.marks (next_at p.elements) p.root
        ≡ builds.old + all_builds (blueprint_of (plain_checked checked.now)) p.screen p.begun.old p.begun.marks (next_at p.elements) p.root)) }
    ensures spent { OnErr result ((t.new.spent ≡ true) × (r.new.spent ≡ true) × (g.new.spent ≡ true)) }
    ensures scale { r.new.scale ≡ r.old.scale }
{
    let end = complete(alloc, checked, lazy, t, r, g, builds);
    if end.is_err() {
        t.spend();
        r.spend();
        g.spend();
    }
    end
}
