// The build of a frame, in both phases: between them the lazy lists that wait are laid out.
ghost use Rattle.std.specs.Prelude.{◌≡◌, ◌↔◌, ◌+◌, ◌<◌, ◌≤◌, IsTrue, true, false, [], Err, IfErr, IfSome, OnOk};
ghost use Rattle.delegates.specs.Table.{meant_in};
ghost use Rattle.fx_handles.specs.Arena.{used_count, inserted_count};
ghost use Rattle.program_check.specs.CheckedView.{plain_checked};
ghost use Rattle.template_build.specs.Program.{declarations_of};
ghost use Rattle.widget_model.specs.Size.{count_of};
ghost use Rattle.widget_model.specs.Sized.{IsSized};
ghost use Rattle.widget_model.specs.Typed.{IsTypedWidget};
ghost use Rattle.widget_model.specs.View.{shared};
ghost use Rattle.layout_form.specs.Object.{setting_of};
ghost use Rattle.build_form.specs.Entering.{output_limit};
ghost use Rattle.build_form.specs.FaultView.{fault_of};
ghost use Rattle.build_form.specs.FullBuild.{failed, full_build};
ghost use Rattle.build_form.specs.Program.{blueprint_of};
ghost use Rattle.build_form.specs.ScreenView.{screen_on};
ghost use Rattle.element_tree.specs.Element.{made_count};
ghost use Rattle.render_tree.specs.Plain.{renders_of, root_tree};
ghost use Rattle.kept_layouts.specs.Here.{KeepsLayouts};
ghost use Rattle.kept_layouts.specs.Items.{AllListsUnasked};
ghost use Rattle.versioned_kinds.specs.Lists.{HasNoListBodies, WidgetHasNoLists};
ghost use Rattle.build_walk.specs.Standing.{first_builds, all_builds};
ghost use Rattle.build_owner.specs.Ready.{HasRoom};
ghost use Rattle.build_owner.specs.Standing.{Beginning, next_at};
ghost use Rattle.frame_owner.specs.Building.{BuildsTree, WaitsForItems, BuildsItems};
ghost use Rattle.frame_owner.specs.Working.{CountsLists, LaidForFault};

use build_form::{
    FrameFault, builds_are_well_built, built_trees_can_be_laid_out, built_trees_vanish_alone,
    states_survive, trees_keep_to_the_limit,
};
use build_owner::{LazyList, flush, flush_items, survivors};
use build_walk::waiting_lists_are_bare;
use delegates::{Delegate, DelegateTable};
use element_tree::ElementTree;
use first_builds::flush_first;
use fx_geom::Size;
use fx_outside::Steps;
use global_keys::Registry;
use kept_phases::{flush_lists, parts_are_redrawn, redraws_keep_layers, redraws_keep_layouts};
use plain_tree::{one_root_is_laid_out, projection_keeps_numbers_apart};
use program_check::Checked;
use render_tree::RenderTree;
use std::alloc::Global;
use std::rc::Rc;
use std::sync::ledger::Ledger;
use versioned_kinds::waiting_lists_are_in_the_tree;
use widget_model::Widget;

// The lazy lists that wait are laid out, and get their items.
fn build_items<B: Ledger, L: Ledger>(
    alloc: Global,
    checked: &Checked,
    lazy: LazyList,
    view: Size,
    table: &DelegateTable,
    t: &mut ElementTree,
    r: &mut RenderTree,
    g: &mut Registry,
    builds: &mut Steps<B>,
    layouts: &mut Steps<L>,
) -> Result<(), FrameFault>
    requires waits { WaitsForItems (plain_checked checked.now) t.old.tree r.old.tree g.old lazy }
    requires some { lazy.lists ≡ [] → ⊥ }
    requires layouts { KeepsLayouts (setting_of r.old.scale (meant_in table.now ⟦<dyn Delegate as Delegate>⟧)) r.old.tree }
    ensures items { OnOk result ((w : WaitsForItems (plain_checked checked.now) t.old.tree r.old.tree g.old lazy)
        → BuildsItems (plain_checked checked.now) (screen_on r.old.scale (meant_in table.now ⟦<dyn Delegate as Delegate>⟧) view) w.begun.old (next_at w.elements) w.root w.begun.scrolled
        r.old.tree t.new.tree r.new.tree g.new layouts.old layouts.new) }
    ensures counts_at_fault { IfErr result (λ e. IfSome (fault_of e) (λ f.
        CountsLists (setting_of r.old.scale (meant_in table.now ⟦<dyn Delegate as Delegate>⟧)) view r.old.tree layouts.old layouts.new)) }
    ensures few { OnOk result (inserted_count r.new.tree.nodes + made_count t.old.tree ≤ inserted_count r.old.tree.nodes + made_count t.new.tree) }
    ensures fault { IfErr result (λ e. IfSome (fault_of e) (λ f. (w : WaitsForItems (plain_checked checked.now) t.old.tree r.old.tree g.old lazy)
        → full_build (blueprint_of (plain_checked checked.now)) (screen_on r.old.scale (meant_in table.now ⟦<dyn Delegate as Delegate>⟧) view) w.begun.old (next_at w.elements) w.root ≡ failed f)) }
    ensures builds { OnOk result ((w : WaitsForItems (plain_checked checked.now) t.old.tree r.old.tree g.old lazy)
        → builds.new + first_builds (blueprint_of (plain_checked checked.now)) w.begun.old w.begun.marks (next_at w.elements) w.root
        ≡ builds.old + all_builds (blueprint_of (plain_checked checked.now)) (screen_on r.old.scale (meant_in table.now ⟦<dyn Delegate as Delegate>⟧) view) w.begun.old w.begun.marks (next_at w.elements) w.root) }
    ensures builds_at_fault { IfErr result (λ e. IfSome (fault_of e) (λ f. (w : WaitsForItems (plain_checked checked.now) t.old.tree r.old.tree g.old lazy)
        → builds.new + first_builds (blueprint_of (plain_checked checked.now)) w.begun.old w.begun.marks (next_at w.elements) w.root
        ≡ builds.old + all_builds (blueprint_of (plain_checked checked.now)) (screen_on r.old.scale (meant_in table.now ⟦<dyn Delegate as Delegate>⟧) view) w.begun.old w.begun.marks (next_at w.elements) w.root)) }
    ensures scale { r.new.scale ≡ r.old.scale }
{
    redraws_keep_layouts();
    redraws_keep_layers();
    survivors();
    waiting_lists_are_bare();
    builds_are_well_built();
    trees_keep_to_the_limit();
    built_trees_vanish_alone();
    built_trees_can_be_laid_out();
    one_root_is_laid_out();
    projection_keeps_numbers_apart();
    flush_lists(alloc, r, view, table, layouts)?;
    // Tells the proof that this is a tree.
    let _ = r.root();
    flush_items(alloc, checked, lazy, t, r, g, builds)
}

// Whether no element stands, where no build of the root can have a lazy list.
fn is_first(listless: bool, t: &ElementTree) -> bool
    ensures { IsTrue result ↔ ((used_count t.now.tree.nodes ≡ 0) × IsTrue listless) }
{
    if !listless {
        return false;
    }
    t.tree().is_empty()
}

/// The whole build of a root after the tree for which elements, render nodes and the registry stand: only the components that changed are
/// built. Where lazy lists wait for their items, the first phase's render nodes are laid out, in a view of this size, in u, before they
/// get them; each rule of that layout that is run counts as one step. It may be said that none can wait: a first build then makes elements
/// and render nodes in their places.
pub(crate) fn build_tree<B: Ledger, L: Ledger>(
    alloc: Global,
    checked: &Checked,
    root: &Rc<Widget>,
    listless: bool,
    view: Size,
    table: &DelegateTable,
    t: &mut ElementTree,
    r: &mut RenderTree,
    g: &mut Registry,
    builds: &mut Steps<B>,
    layouts: &mut Steps<L>,
) -> Result<(), FrameFault>
    requires stands { Beginning (plain_checked checked.now) t.old.tree r.old.tree g.old }
    requires layouts { KeepsLayouts (setting_of r.old.scale (meant_in table.now ⟦<dyn Delegate as Delegate>⟧)) r.old.tree }
    requires unasked { AllListsUnasked false (renders_of (root_tree r.old.tree)) }
    requires root { IsTypedWidget (declarations_of (plain_checked checked.now)) (shared root.now) }
    requires size { IsSized root.now.value }
    requires listless { listless ≡ true → HasNoListBodies (plain_checked checked.now) × WidgetHasNoLists (shared root.now) }
    requires room { HasRoom (blueprint_of (plain_checked checked.now)).nodes 0 t.old.tree r.old.tree }
    ensures tree { OnOk result ((b : Beginning (plain_checked checked.now) t.old.tree r.old.tree g.old)
        → BuildsTree (plain_checked checked.now) (screen_on r.old.scale (meant_in table.now ⟦<dyn Delegate as Delegate>⟧) view) b.old (next_at t.old.tree) (shared root.now) b.scrolled
        r.old.tree t.new.tree r.new.tree g.new layouts.old layouts.new) }
    ensures laid_at_fault { IfErr result (λ e. IfSome (fault_of e) (λ f. (b : Beginning (plain_checked checked.now) t.old.tree r.old.tree g.old)
        → LaidForFault (plain_checked checked.now) (screen_on r.old.scale (meant_in table.now ⟦<dyn Delegate as Delegate>⟧) view) b.old (next_at t.old.tree) (shared root.now) r.old.tree layouts.old layouts.new)) }
    ensures few { OnOk result (inserted_count r.new.tree.nodes + made_count t.old.tree ≤ inserted_count r.old.tree.nodes + made_count t.new.tree) }
    ensures fault { IfErr result (λ e. IfSome (fault_of e) (λ f. (b : Beginning (plain_checked checked.now) t.old.tree r.old.tree g.old)
        → full_build (blueprint_of (plain_checked checked.now)) (screen_on r.old.scale (meant_in table.now ⟦<dyn Delegate as Delegate>⟧) view) b.old (next_at t.old.tree) (shared root.now) ≡ failed f)) }
    ensures too_large { output_limit < count_of (shared root.now) → result ≡ Err FrameFault.OutputTooLarge }
    ensures builds { OnOk result ((b : Beginning (plain_checked checked.now) t.old.tree r.old.tree g.old)
        → builds.new ≡ builds.old + all_builds (blueprint_of (plain_checked checked.now)) (screen_on r.old.scale (meant_in table.now ⟦<dyn Delegate as Delegate>⟧) view) b.old b.marks (next_at t.old.tree) (shared root.now)) }
    ensures builds_at_fault { IfErr result (λ e. IfSome (fault_of e) (λ f. (b : Beginning (plain_checked checked.now) t.old.tree r.old.tree g.old)
        → builds.new ≡ builds.old + all_builds (blueprint_of (plain_checked checked.now)) (screen_on r.old.scale (meant_in table.now ⟦<dyn Delegate as Delegate>⟧) view) b.old b.marks (next_at t.old.tree) (shared root.now))) }
    ensures scale { r.new.scale ≡ r.old.scale }
{
    redraws_keep_layouts();
    redraws_keep_layers();
    waiting_lists_are_in_the_tree();
    parts_are_redrawn();
    survivors();
    states_survive();
    waiting_lists_are_bare();
    builds_are_well_built();
    trees_keep_to_the_limit();
    built_trees_vanish_alone();
    built_trees_can_be_laid_out();
    one_root_is_laid_out();
    projection_keeps_numbers_apart();
    // Tells the proof how many nodes there may be.
    t.tree().count_laws();
    if is_first(listless, t) {
        return flush_first(alloc, checked, root, t, r, g, builds);
    }
    let lazy = flush(alloc, checked, root, t, r, g, builds)?;
    if !lazy.waits() {
        return Ok(());
    }
    build_items(alloc, checked, lazy, view, table, t, r, g, builds, layouts)
}
