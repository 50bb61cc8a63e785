// The build of a screen over the trees of the last frame (`BuildOwner.buildScope`).
ghost use Rattle.std.specs.Prelude.{◌≡◌, ◌+◌, ◌<◌, ◌≤◌, [], true, Err, IfOk, OnOk, IfErr, OnErr, IfSome};
ghost use Rattle.fx_handles.specs.Arena.{inserted_count};
ghost use Rattle.program_check.specs.CheckedView.{plain_checked};
ghost use Rattle.template_build.specs.Program.{declarations_of};
ghost use Rattle.widget_model.specs.Size.{count_of};
ghost use Rattle.widget_model.specs.Sized.{IsSized};
ghost use Rattle.widget_model.specs.Typed.{IsTypedWidget};
ghost use Rattle.widget_model.specs.View.{shared};
ghost use Rattle.build_form.specs.Entering.{output_limit};
ghost use Rattle.build_form.specs.FaultView.{fault_of};
ghost use Rattle.build_form.specs.FullBuild.{Screen, failed, full_build};
ghost use Rattle.build_form.specs.Program.{blueprint_of};
ghost use Rattle.element_tree.specs.Element.{made_count};
ghost use Rattle.build_walk.specs.Standing.{first_builds, all_builds};
ghost use Rattle.build_owner.specs.Phases.{IsWholeBuild, IsFirstPhase};
ghost use Rattle.build_owner.specs.Ready.{HasRoom};
ghost use Rattle.build_owner.specs.Standing.{Beginning, next_at};

use crate::beginning::{nothing_walked, walk_first};
use crate::committing::{commit_whole, redraw_part};
use crate::lazy::LazyList;
use crate::source::WalkSource;
use build_form::{FrameFault, builds_are_well_built, survivors};
use build_walk::{
    builds_leave_standing_trees, built_trees_have_one_top, first_phases_go_on_from_elements,
    one_forest_plans_both_trees,
};
use element_tree::ElementTree;
use fx_outside::Steps;
use global_keys::Registry;
use program_check::Checked;
use render_tree::RenderTree;
use std::alloc::Global;
use std::rc::Rc;
use std::sync::ledger::Ledger;
use widget_model::Widget;

// How many widgets a template may give.
const OUTPUT_LIMIT: u32 = 65_536;

// The first phase, and what comes of it; after want of memory and after faults the trees are as it left them.
fn build_first<L: Ledger>(
    alloc: Global,
    checked: &Checked,
    root: &Rc<Widget>,
    t: &mut ElementTree,
    r: &mut RenderTree,
    g: &mut Registry,
    builds: &mut Steps<L>,
) -> Result<LazyList, FrameFault>
    requires stands { Beginning (plain_checked checked.now) t.old.tree r.old.tree g.old }
    requires root { IsTypedWidget (declarations_of (plain_checked checked.now)) (shared root.now) }
    requires size { IsSized root.now.value }
    requires room { HasRoom (blueprint_of (plain_checked checked.now)).nodes 0 t.old.tree r.old.tree }
    ensures whole { IfOk result (λ l. l.lists ≡ [] → (b : Beginning (plain_checked checked.now) t.old.tree r.old.tree g.old) (screen : Screen)
        → IsWholeBuild (plain_checked checked.now) t.old.tree r.old.tree g.old b screen (shared root.now) r.old.tree t.new.tree r.new.tree g.new) }
    ensures first { IfOk result (λ l. (l.lists ≡ [] → ⊥) → (b : Beginning (plain_checked checked.now) t.old.tree r.old.tree g.old)
        → IsFirstPhase (plain_checked checked.now) t.old.tree r.old.tree g.old b (shared root.now) t.new.tree r.new.tree g.new l) }
    ensures few { OnOk result (inserted_count r.new.tree.nodes + made_count t.old.tree ≤ inserted_count r.old.tree.nodes + made_count t.new.tree) }
    ensures fault { IfErr result (λ e. IfSome (fault_of e) (λ x. (b : Beginning (plain_checked checked.now) t.old.tree r.old.tree g.old) (screen : Screen)
        → full_build (blueprint_of (plain_checked checked.now)) screen b.old (next_at t.old.tree) (shared root.now) ≡ failed x)) }
    ensures too_large { output_limit < count_of (shared root.now) → result ≡ Err FrameFault.OutputTooLarge }
    ensures builds { OnOk result ((b : Beginning (plain_checked checked.now) t.old.tree r.old.tree g.old)
        → builds.new ≡ builds.old + first_builds (blueprint_of (plain_checked checked.now)) b.old b.marks (next_at t.old.tree) (shared root.now)) }
    ensures builds_whole { IfOk result (λ l. l.lists ≡ [] → (b : Beginning (plain_checked checked.now) t.old.tree r.old.tree g.old) (screen : Screen)
        → builds.new ≡ builds.old + all_builds (blueprint_of (plain_checked checked.now)) screen b.old b.marks (next_at t.old.tree) (shared root.now)) }
    ensures builds_at_fault { IfErr result (λ e. IfSome (fault_of e) (λ x. (b : Beginning (plain_checked checked.now) t.old.tree r.old.tree g.old) (screen : Screen)
        → builds.new ≡ builds.old + all_builds (blueprint_of (plain_checked checked.now)) screen b.old b.marks (next_at t.old.tree) (shared root.now))) }
    ensures scale { r.new.scale ≡ r.old.scale }
{
    built_trees_have_one_top();
    builds_leave_standing_trees();
    first_phases_go_on_from_elements();
    builds_are_well_built();
    survivors();
    one_forest_plans_both_trees();
    if root.size > OUTPUT_LIMIT {
        return Err(FrameFault::OutputTooLarge);
    }
    let from = WalkSource { alloc, checked };
    let mut walk = nothing_walked(alloc, root, t, r)?;
    let at = walk_first(&from, root, t, r, g, &mut walk, builds)?;
    if walk.spots.len() == 0 {
        commit_whole(t, r, g, at, &mut walk)?;
        return Ok(LazyList { root: at, walk });
    }
    // Tells the proof that this is a tree.
    let _ = r.root();
    redraw_part(alloc, r, &walk)?;
    Ok(LazyList { root: at, walk })
}

/// The first phase of a build: the tree of a root widget after the last frame's tree, for which both trees and the registry stand. Only
/// the components that changed are built. Where no lazy list waits for its items it is the whole build, and then both trees and the
/// registry stand for the new tree. Otherwise the elements stay as they are until the second phase, but that new ones are made, and
/// the render nodes are those of the first phase's tree, so that it can be laid out; what was there else stands beside it.
///
/// The first fault of the build is answered, and want of memory. After either all three are spent.
pub fn flush<L: Ledger>(
    alloc: Global,
    checked: &Checked,
    root: &Rc<Widget>,
    t: &mut ElementTree,
    r: &mut RenderTree,
    g: &mut Registry,
    builds: &mut Steps<L>,
) -> Result<LazyList, FrameFault>
    requires stands { Beginning (plain_checked checked.now) t.old.tree r.old.tree g.old }
    requires root { IsTypedWidget (declarations_of (plain_checked checked.now)) (shared root.now) }
    requires size { IsSized root.now.value }
    requires room { HasRoom (blueprint_of (plain_checked checked.now)).nodes 0 t.old.tree r.old.tree }
    ensures whole { IfOk result (λ l. l.lists ≡ [] → (b : Beginning (plain_checked checked.now) t.old.tree r.old.tree g.old) (screen : Screen)
        → IsWholeBuild (plain_checked checked.now) t.old.tree r.old.tree g.old b screen (shared root.now) r.old.tree t.new.tree r.new.tree g.new) }
    ensures first { IfOk result (λ l. (l.lists ≡ [] → ⊥) → (b : Beginning (plain_checked checked.now) t.old.tree r.old.tree g.old)
        → IsFirstPhase (plain_checked checked.now) t.old.tree r.old.tree g.old b (shared root.now) t.new.tree r.new.tree g.new l) }
    ensures few { OnOk result (inserted_count r.new.tree.nodes + made_count t.old.tree ≤ inserted_count r.old.tree.nodes + made_count t.new.tree) }
    ensures fault { IfErr result (λ e. IfSome (fault_of e) (λ x. (b : Beginning (plain_checked checked.now) t.old.tree r.old.tree g.old) (screen : Screen)
        → full_build (blueprint_of (plain_checked checked.now)) screen b.old (next_at t.old.tree) (shared root.now) ≡ failed x)) }
    // A root that is too large is told before anything takes memory.
    ensures too_large { output_limit < count_of (shared root.now) → result ≡ Err FrameFault.OutputTooLarge }
    // Exactly the components are built that are new, marked, have another widget, or read another value.
    ensures builds { OnOk result ((b : Beginning (plain_checked checked.now) t.old.tree r.old.tree g.old)
        → builds.new ≡ builds.old + first_builds (blueprint_of (plain_checked checked.now)) b.old b.marks (next_at t.old.tree) (shared root.now)) }
    ensures builds_whole { IfOk result (λ l. l.lists ≡ [] → (b : Beginning (plain_checked checked.now) t.old.tree r.old.tree g.old) (screen : Screen)
        → builds.new ≡ builds.old + all_builds (blueprint_of (plain_checked checked.now)) screen b.old b.marks (next_at t.old.tree) (shared root.now)) }
    ensures builds_at_fault { IfErr result (λ e. IfSome (fault_of e) (λ x. (b : Beginning (plain_checked checked.now) t.old.tree r.old.tree g.old) (screen : Screen)
        → builds.new ≡ builds.old + all_builds (blueprint_of (plain_checked checked.now)) screen b.old b.marks (next_at t.old.tree) (shared root.now))) }
    ensures spent { OnErr result ((t.new.spent ≡ true) × (r.new.spent ≡ true) × (g.new.spent ≡ true)) }
    ensures scale { r.new.scale ≡ r.old.scale }
{
    let end = build_first(alloc, checked, root, t, r, g, builds);
    if end.is_err() {
        t.spend();
        r.spend();
        g.spend();
    }
    end
}
