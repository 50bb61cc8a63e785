// The first build of a screen, where nothing stands yet and no lazy list can be.
ghost use Rattle.std.specs.Prelude.{◌≡◌, ◌+◌, ◌<◌, ◌≤◌, true, Err, OnOk, IfErr, OnErr, IfSome};
ghost use Rattle.fx_handles.specs.Arena.{used_count, inserted_count};
ghost use Rattle.program_check.specs.CheckedView.{plain_checked};
ghost use Rattle.template_build.specs.Program.{declarations_of};
ghost use Rattle.widget_model.specs.Size.{count_of};
ghost use Rattle.widget_model.specs.Sized.{IsSized};
ghost use Rattle.widget_model.specs.Typed.{IsTypedWidget};
ghost use Rattle.widget_model.specs.View.{shared};
ghost use Rattle.build_form.specs.Entering.{output_limit};
ghost use Rattle.build_form.specs.FaultView.{fault_of};
ghost use Rattle.build_form.specs.FullBuild.{Screen, failed, full_build};
ghost use Rattle.build_form.specs.Program.{blueprint_of};
ghost use Rattle.element_tree.specs.Element.{made_count};
ghost use Rattle.versioned_kinds.specs.Lists.{HasNoListBodies, WidgetHasNoLists};
ghost use Rattle.build_walk.specs.Standing.{all_builds};
ghost use Rattle.build_owner.specs.Phases.{IsWholeBuild};
ghost use Rattle.build_owner.specs.Ready.{HasRoom};
ghost use Rattle.build_owner.specs.Standing.{Beginning, next_at};

use crate::inflating::inflate;
use crate::laws::inflated_roots_stand;
use crate::mounting::MountSpot;
use build_form::FrameFault;
use build_owner::{DEPTH_LIMIT, WalkSource};
use build_walk::first_phases_go_on_from_elements;
use element_tree::ElementTree;
use fx_outside::Steps;
use global_keys::Registry;
use plain_build::default_values;
use program_check::Checked;
use render_tree::RenderTree;
use std::alloc::Global;
use std::rc::Rc;
use std::sync::ledger::Ledger;
use widget_model::Widget;

// How many widgets a template may give.
const OUTPUT_LIMIT: u32 = 65_536;

// All three are spent.
fn spend(t: &mut ElementTree, r: &mut RenderTree, g: &mut Registry)
    ensures spent { (t.new.spent ≡ true) × (r.new.spent ≡ true) × (g.new.spent ≡ true) }
    ensures scale { r.new.scale ≡ r.old.scale }
{
    t.spend();
    r.spend();
    g.spend();
}

/// The whole build of a root widget where no element stands, and neither the root nor the body of a component has a lazy list: elements
/// and render nodes are made in their places, from the root on. Then both trees and the registry stand for the tree that the full build
/// gives.
///
/// The first fault of the build is answered, and want of memory. After either all three are spent.
pub fn flush_first<L: Ledger>(
    alloc: Global,
    checked: &Checked,
    root: &Rc<Widget>,
    t: &mut ElementTree,
    r: &mut RenderTree,
    g: &mut Registry,
    builds: &mut Steps<L>,
) -> Result<(), FrameFault>
    requires stands { Beginning (plain_checked checked.now) t.old.tree r.old.tree g.old }
    requires none { used_count t.old.tree.nodes ≡ 0 }
    requires listless { HasNoListBodies (plain_checked checked.now) × WidgetHasNoLists (shared root.now) }
    requires root { IsTypedWidget (declarations_of (plain_checked checked.now)) (shared root.now) }
    requires size { IsSized root.now.value }
    requires room { HasRoom (blueprint_of (plain_checked checked.now)).nodes 0 t.old.tree r.old.tree }
    ensures whole { OnOk result ((b : Beginning (plain_checked checked.now) t.old.tree r.old.tree g.old) (screen : Screen)
        → IsWholeBuild (plain_checked checked.now) t.old.tree r.old.tree g.old b screen (shared root.now) r.old.tree t.new.tree r.new.tree g.new) }
    ensures few { OnOk result (inserted_count r.new.tree.nodes + made_count t.old.tree ≤ inserted_count r.old.tree.nodes + made_count t.new.tree) }
    ensures fault { IfErr result (λ e. IfSome (fault_of e) (λ x. (b : Beginning (plain_checked checked.now) t.old.tree r.old.tree g.old) (screen : Screen)
        → full_build (blueprint_of (plain_checked checked.now)) screen b.old (next_at t.old.tree) (shared root.now) ≡ failed x)) }
    // A root that is too large is told before anything takes memory.
    ensures too_large { output_limit < count_of (shared root.now) → result ≡ Err FrameFault.OutputTooLarge }
    // Each component is new, and built once.
    ensures builds { OnOk result ((b : Beginning (plain_checked checked.now) t.old.tree r.old.tree g.old) (screen : Screen)
        → builds.new ≡ builds.old + all_builds (blueprint_of (plain_checked checked.now)) screen b.old b.marks (next_at t.old.tree) (shared root.now)) }
    ensures builds_at_fault { IfErr result (λ e. IfSome (fault_of e) (λ x. (b : Beginning (plain_checked checked.now) t.old.tree r.old.tree g.old) (screen : Screen)
        → builds.new ≡ builds.old + all_builds (blueprint_of (plain_checked checked.now)) screen b.old b.marks (next_at t.old.tree) (shared root.now))) }
    ensures spent { OnErr result ((t.new.spent ≡ true) × (r.new.spent ≡ true) × (g.new.spent ≡ true)) }
    ensures scale { r.new.scale ≡ r.old.scale }
{
    inflated_roots_stand();
    first_phases_go_on_from_elements();
    if root.size > OUTPUT_LIMIT {
        spend(t, r, g);
        return Err(FrameFault::OutputTooLarge);
    }
    let Ok(mut defaults) = default_values(alloc, checked) else {
        spend(t, r, g);
        return Err(FrameFault::OutOfMemory);
    };
    let from = WalkSource { alloc, checked };
    let left = DEPTH_LIMIT;
    let values = defaults.as_mut_slice();
    let entered = &mut 0;
    let spot = MountSpot {
        parent: None,
        above: None,
        kind: None,
        told: None,
    };
    g.begin();
    match inflate(
        &from, left, values, &spot, root, 0, t, r, g, entered, builds,
    ) {
        Ok(_) => Ok(()),
        Err(fault) => {
            spend(t, r, g);
            Err(fault)
        }
    }
}
