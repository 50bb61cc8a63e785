// The second phase: each lazy list that waits gets its items (`SliverMultiBoxAdaptorElement`).
ghost use Rattle.std.specs.Prelude.{◌≡◌, ◌+◌, ◌++◌, List, map, length, IfOk, OnOk, IfErr, IfSome};
ghost use Rattle.fx_handles.specs.declared.Handle.{Handle as AnyHandle};
ghost use Rattle.node_tree.specs.Children.{Keeps};
ghost use Rattle.widget_model.specs.Plain.{children_of as child_widgets};
ghost use Rattle.widget_model.specs.View.{shared};
ghost use Rattle.build_form.specs.Entering.{second};
ghost use Rattle.build_form.specs.FaultView.{fault_of};
ghost use Rattle.build_form.specs.FullBuild.{Ranges, items};
ghost use Rattle.build_form.specs.Partner.{arrivals};
ghost use Rattle.build_form.specs.Step.{stops, each};
ghost use Rattle.element_tree.specs.Element.{made_count};
ghost use Rattle.build_walk.specs.Counting.{builds_from, builds_by_each};
ghost use Rattle.build_walk.specs.Keeping.{reenter};
ghost use Rattle.build_walk.specs.Kept.{plain_at_any};
ghost use Rattle.build_walk.specs.Serving.{served, builds_serving};
ghost use Rattle.build_owner.specs.Entry.{IsTypedSpot, AreTypedSpots, AreOldSpots};
ghost use Rattle.build_owner.specs.LastFrame.{LastFrame, IsOld, IsSince};
ghost use Rattle.build_owner.specs.Making.{MakesNodes};
ghost use Rattle.build_owner.specs.Naming.{AreHeld};
ghost use Rattle.build_owner.specs.Ready.{IsReadyToWalk};
ghost use Rattle.build_owner.specs.Served.{IsUnplanned, IsServed, AreServed, AreRangesOf, all_served};
ghost use Rattle.build_owner.specs.WalkView.{basis_of, declared_by, program_of, progress_of, waiting_of};

use crate::arriving::{arrivals, arrived};
use crate::entering::enter_all;
use crate::items::items_among;
use crate::names::{NameValues, below_old};
use crate::source::{Phase, WalkSource};
use crate::walk::{BuildWalk, EnteredPlace, WaitingSpot};
use build_form::FrameFault;
use build_walk::{forests_are_walked_in_turn, kept_elements_are_known, kept_elements_stay};
use element_tree::{Element, ElementTree, Renewal};
use fx_handles::Handle;
use fx_outside::Steps;
use global_keys::Registry;
use node_tree::{PlanEntry, Tree};
use plain_tree::RenderRole;
use render_tree::{Redraw, RenderObject, RenderTree};
use sliver_layout::Window;
use std::mem::replace;
use std::sync::ledger::Ledger;

/// What was planned for the items of a lazy list: the elements right below it and the entries of all below it, and so of the render
/// nodes.
#[derive(Drop)]
pub(crate) struct ServedList {
    pub(crate) children: Vec<Handle>,
    pub(crate) elements: Vec<PlanEntry<Renewal>>,
    pub(crate) tops: Vec<Handle>,
    pub(crate) renders: Vec<PlanEntry<Redraw>>,
}

// Enters the items of a lazy list, which has this render node, with plans of their own.
fn serve<L: Ledger>(
    from: &WalkSource<'_>,
    spot: WaitingSpot,
    above: Handle,
    range: Window,
    t: &mut ElementTree,
    r: &mut RenderTree,
    g: &mut Registry,
    walk: &mut BuildWalk,
    builds: &mut Steps<L>,
) -> Result<ServedList, FrameFault>
    requires ready { IsReadyToWalk (declared_by from.now) (program_of from.now).nodes walk.old.entered t.old.tree r.old.tree g.old }
    requires spots { AreTypedSpots (declared_by from.now) t.old.tree walk.old.spots.items }
    requires spot { IsTypedSpot (declared_by from.now) t.old.tree spot }
    requires empty { IsUnplanned walk.old }
    ensures served { IfOk result (λ o. (f : LastFrame) → IsSince (program_of from.now).defaults f t.old.tree r.old.tree g.old → IfSome spot.kept (IsOld f spot.was.items)
        → IsServed (basis_of from.now f) f.pasts f.scrolled spot above (items range (arrivals (plain_at_any f.scrolled f.elements spot.kept) (child_widgets (shared spot.list))))
        (progress_of f walk.old g.old t.old.tree) (progress_of f walk.new g.new t.new.tree) t.new.tree r.new.tree o) }
    ensures fault { IfErr result (λ e. IfSome (fault_of e) (λ x. (f : LastFrame) → IsSince (program_of from.now).defaults f t.old.tree r.old.tree g.old → IfSome spot.kept (IsOld f spot.was.items)
        → each (reenter (basis_of from.now f) f.pasts second spot.left spot.now.items) (items range (arrivals (plain_at_any f.scrolled f.elements spot.kept) (child_widgets (shared spot.list))))
        (progress_of f walk.old g.old t.old.tree) ≡ stops x)) }
    ensures builds { OnOk result ((f : LastFrame) → IsSince (program_of from.now).defaults f t.old.tree r.old.tree g.old → IfSome spot.kept (IsOld f spot.was.items)
        → builds.new ≡ builds.old + builds_by_each (reenter (basis_of from.now f) f.pasts second spot.left spot.now.items) (builds_from (basis_of from.now f) f.pasts second spot.left spot.now.items)
        (items range (arrivals (plain_at_any f.scrolled f.elements spot.kept) (child_widgets (shared spot.list)))) (progress_of f walk.old g.old t.old.tree)) }
    ensures builds_at_fault { IfErr result (λ e. IfSome (fault_of e) (λ x. (f : LastFrame) → IsSince (program_of from.now).defaults f t.old.tree r.old.tree g.old → IfSome spot.kept (IsOld f spot.was.items)
        → builds.new ≡ builds.old + builds_by_each (reenter (basis_of from.now f) f.pasts second spot.left spot.now.items) (builds_from (basis_of from.now f) f.pasts second spot.left spot.now.items)
        (items range (arrivals (plain_at_any f.scrolled f.elements spot.kept) (child_widgets (shared spot.list)))) (progress_of f walk.old g.old t.old.tree))) }
    ensures since { OnOk result ((f : LastFrame) → IsSince (program_of from.now).defaults f t.old.tree r.old.tree g.old → IsSince (program_of from.now).defaults f t.new.tree r.new.tree g.new) }
    ensures keeps { OnOk result (Keeps t.old.tree t.new.tree) }
    ensures keeps_drawn { OnOk result (Keeps r.old.tree r.new.tree) }
    ensures makes_drawn { OnOk result (MakesNodes (made_count t.old.tree) (made_count t.new.tree) r.old.tree r.new.tree) }
    ensures ready { OnOk result (IsReadyToWalk (declared_by from.now) (program_of from.now).nodes walk.new.entered t.new.tree r.new.tree g.new) }
    ensures typed { OnOk result (AreTypedSpots (declared_by from.now) t.new.tree walk.new.spots.items) }
    ensures others { OnOk result (walk.new.spots.items ≡ walk.old.spots.items) }
    ensures empty { OnOk result (IsUnplanned walk.new) }
    ensures held { IfOk result (λ o. (hs : List AnyHandle) → AreHeld g.old t.old.tree hs → AreHeld g.new t.new.tree (hs ++ map (λ e. e.at) o.elements.items)) }
    ensures scale { r.new.scale ≡ r.old.scale }
{
    kept_elements_are_known();
    kept_elements_stay();
    Tree::<Element>::keep_laws();
    Tree::<Element>::walk_laws();
    // Tells the proof that this is a tree.
    let _ = t.root();
    let WaitingSpot {
        at,
        kept,
        left,
        now,
        was,
        list,
        ..
    } = spot;
    let arriving = arrivals(from.alloc, t, kept, list.children.get())?;
    let items = items_among(from.alloc, range, arrived(&arriving))?;
    let role = RenderRole::Lazy;
    let place = EnteredPlace {
        parent: Some(at),
        above: Some(above),
        role: &role,
        told: None,
    };
    let had = below_old(was, t, kept)?;
    let mut names = NameValues { now, was: had };
    let children = enter_all(
        from,
        Phase::Second,
        left,
        &mut names,
        &place,
        items.as_slice(),
        t,
        r,
        g,
        walk,
        builds,
    )?;
    Ok(ServedList {
        children,
        elements: replace(&mut walk.elements, Vec::new(from.alloc)),
        tops: replace(&mut walk.tops, Vec::new(from.alloc)),
        renders: replace(&mut walk.renders, Vec::new(from.alloc)),
    })
}

/// Each lazy list that waits gets its items, from first to last: those in its live range, and those that stay. The lists have these
/// render nodes and ranges.
pub(crate) fn serve_all<L: Ledger>(
    from: &WalkSource<'_>,
    drawn: &[Handle],
    ranges: &[Window],
    t: &mut ElementTree,
    r: &mut RenderTree,
    g: &mut Registry,
    walk: &mut BuildWalk,
    builds: &mut Steps<L>,
) -> Result<Vec<ServedList>, FrameFault>
    requires ready { IsReadyToWalk (declared_by from.now) (program_of from.now).nodes walk.old.entered t.old.tree r.old.tree g.old }
    requires spots { AreTypedSpots (declared_by from.now) t.old.tree walk.old.spots.items }
    requires empty { IsUnplanned walk.old }
    requires drawn { length drawn.now ≡ length walk.old.spots.items }
    requires ranges { length ranges.now ≡ length walk.old.spots.items }
    ensures served { IfOk result (λ os. (f : LastFrame) → IsSince (program_of from.now).defaults f t.old.tree r.old.tree g.old → AreOldSpots f walk.old.spots.items
        → (which : Ranges) → AreRangesOf which walk.old.spots.items ranges.now
        → AreServed (basis_of from.now f) f.pasts f.scrolled which walk.old.spots.items drawn.now (progress_of f walk.old g.old t.old.tree) (progress_of f walk.new g.new t.new.tree)
        t.new.tree r.new.tree os.items) }
    ensures fault { IfErr result (λ e. IfSome (fault_of e) (λ x. (f : LastFrame) → IsSince (program_of from.now).defaults f t.old.tree r.old.tree g.old → AreOldSpots f walk.old.spots.items
        → (which : Ranges) → AreRangesOf which walk.old.spots.items ranges.now
        → each (served (basis_of from.now f) f.pasts which) (map waiting_of walk.old.spots.items) (progress_of f walk.old g.old t.old.tree) ≡ stops x)) }
    ensures builds { OnOk result ((f : LastFrame) → IsSince (program_of from.now).defaults f t.old.tree r.old.tree g.old → AreOldSpots f walk.old.spots.items
        → (which : Ranges) → AreRangesOf which walk.old.spots.items ranges.now
        → builds.new ≡ builds.old + builds_by_each (served (basis_of from.now f) f.pasts which) (builds_serving (basis_of from.now f) f.pasts which) (map waiting_of walk.old.spots.items)
        (progress_of f walk.old g.old t.old.tree)) }
    ensures builds_at_fault { IfErr result (λ e. IfSome (fault_of e) (λ x. (f : LastFrame) → IsSince (program_of from.now).defaults f t.old.tree r.old.tree g.old → AreOldSpots f walk.old.spots.items
        → (which : Ranges) → AreRangesOf which walk.old.spots.items ranges.now
        → builds.new ≡ builds.old + builds_by_each (served (basis_of from.now f) f.pasts which) (builds_serving (basis_of from.now f) f.pasts which) (map waiting_of walk.old.spots.items)
        (progress_of f walk.old g.old t.old.tree))) }
    ensures since { OnOk result ((f : LastFrame) → IsSince (program_of from.now).defaults f t.old.tree r.old.tree g.old → IsSince (program_of from.now).defaults f t.new.tree r.new.tree g.new) }
    ensures keeps { OnOk result (Keeps t.old.tree t.new.tree) }
    ensures keeps_drawn { OnOk result (Keeps r.old.tree r.new.tree) }
    ensures makes_drawn { OnOk result (MakesNodes (made_count t.old.tree) (made_count t.new.tree) r.old.tree r.new.tree) }
    ensures ready { OnOk result (IsReadyToWalk (declared_by from.now) (program_of from.now).nodes walk.new.entered t.new.tree r.new.tree g.new) }
    ensures held { IfOk result (λ os. (hs : List AnyHandle) → AreHeld g.old t.old.tree hs → AreHeld g.new t.new.tree (hs ++ all_served os.items)) }
    ensures scale { r.new.scale ≡ r.old.scale }
{
    Tree::<Element>::keep_laws();
    Tree::<RenderObject>::keep_laws();
    Tree::<Element>::walk_laws();
    forests_are_walked_in_turn();
    kept_elements_stay();
    // Tells the proof that this is a tree.
    let _ = t.root();
    let mut lists = Vec::with_capacity(from.alloc, drawn.len())?;
    for i in 0..drawn.len() {
        let Some(spot) = walk.spots.pop_front() else {
            unreachable!()
        };
        let list = serve(from, spot, drawn[i], ranges[i], t, r, g, walk, builds)?;
        lists.push(list)?;
    }
    Ok(lists)
}
